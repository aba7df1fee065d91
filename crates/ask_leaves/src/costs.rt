// Calls asked many times, so that their time can be told from outside.

use http_frames::{BodyState, Unit, go_on, next_unit};
use http_heads::{read_request, write_request};
use httparse::Status;
use httparse::spans::{EMPTY_HEADER_SPAN, parse_request};
use questions::Question;
use std::alloc::Global;

/// The most times that a call is asked.
const MOST: u64 = 1_000_000;

/// What so many calls answer together.
pub fn answer(question: &mut Question<'_>) {
    let count = question.number(MOST);
    let call = question.word();
    let bytes = question.text();
    let count = if question.is_known() { count } else { 0 };
    say_sum(
        question,
        sum_of(question.alloc, count, call, bytes.as_bytes()),
    );
}

fn say_sum(question: &mut Question<'_>, sum: Option<usize>) {
    match sum {
        Some(sum) => question.say_number(sum as u64),
        None => question.unknown(),
    }
}

fn sum_of(alloc: Global, count: u64, call: &str, bytes: &[u8]) -> Option<usize> {
    match call {
        "parse" => Some(parsed(count, bytes)),
        "read" => Some(heads_read(alloc, count, bytes)),
        "write" => Some(heads_written(alloc, count, bytes)),
        "units" => Some(units_read(count, bytes)),
        _ => None,
    }
}

// The fields that `httparse` alone finds.
fn parsed(count: u64, bytes: &[u8]) -> usize {
    let mut sum = 0usize;
    for _ in 0..count {
        let mut headers = [EMPTY_HEADER_SPAN; 100];
        if let Ok(Status::Complete(found)) = parse_request(bytes, &mut headers) {
            sum = sum.wrapping_add(found.headers);
        }
    }
    sum
}

// The fields of the heads.
fn heads_read(alloc: Global, count: u64, bytes: &[u8]) -> usize {
    let mut sum = 0usize;
    for _ in 0..count {
        if let Ok(head) = read_request(alloc, bytes) {
            sum = sum.wrapping_add(head.fields.as_slice().len());
        }
    }
    sum
}

// The bytes that are written of a head.
fn heads_written(alloc: Global, count: u64, bytes: &[u8]) -> usize {
    let Ok(head) = read_request(alloc, bytes) else {
        return 0;
    };
    let mut sum = 0usize;
    for _ in 0..count {
        if let Ok(text) = write_request(alloc, &head) {
            sum = sum.wrapping_add(text.len());
        }
    }
    sum
}

// The bytes of a chunked body, unit by unit.
fn units_read(count: u64, bytes: &[u8]) -> usize {
    let mut sum = 0usize;
    for _ in 0..count {
        sum = sum.wrapping_add(body_read(bytes));
    }
    sum
}

fn body_read(bytes: &[u8]) -> usize {
    let mut state = BodyState::FirstLine;
    let mut rest = bytes;
    for _ in 0..bytes.len() {
        let unit = next_unit(state, rest, true);
        let size = size_of(unit).min(rest.len());
        if size == 0 {
            break;
        }
        rest = &rest[size..];
        state = go_on(state, unit);
    }
    bytes.len().wrapping_sub(rest.len())
}

fn size_of(unit: Unit) -> usize {
    match unit {
        Unit::Piece(size) | Unit::Finished(size) => size,
        Unit::ChunkLine { line, .. } => line,
        Unit::NotYet | Unit::Fault(_) => 0,
    }
}
