// The report as TAP.

ghost use Rattle.std.specs.Prelude.{◌≡◌, IfOk, flat_map};
ghost use Rattle.test_report.specs.Report.{tap_byte, tap_from, tap_head, tap_line, tap_name};
ghost use Rattle.test_report.specs.Report.{tap_one, tap_place, tap_text};

use crate::ascii::{ascii, ascii_lines};
use crate::joined::{joined, print_number};
use crate::result::TestResult;
use px_bytes::{M, Text};
use std::alloc::Global;

fn tap_byte(alloc: Global, byte: u8) -> M<Text>
    ensures { IfOk result (λ text. text ≡ tap_byte byte) }
{
    match byte {
        b'#' => Text::new(alloc, b"\\#"),
        b'\\' => Text::new(alloc, b"\\\\"),
        _ => Text::new(alloc, &[byte]),
    }
}

fn escaped(alloc: Global, bytes: &[u8]) -> M<Text>
    ensures { IfOk result (λ text. text ≡ flat_map tap_byte bytes.now) }
{
    let mut text = Text::empty(alloc);
    for byte in bytes {
        let part = tap_byte(alloc, *byte)?;
        text.push(part.as_bytes())?;
    }
    Ok(text)
}

fn tap_name(alloc: Global, name: &[u8]) -> M<Text>
    ensures { IfOk result (λ text. text ≡ tap_name name.now) }
{
    let shown = ascii(alloc, name)?;
    escaped(alloc, shown.as_bytes())
}

fn tap_head(passed: bool) -> &'static [u8]
    ensures { result.now ≡ tap_head passed }
{
    if passed { b"ok " } else { b"not ok " }
}

fn tap_place(alloc: Global, one: &TestResult) -> M<Text>
    ensures { IfOk result (λ text. text ≡ tap_place one.now) }
{
    let file = tap_name(alloc, one.file.as_bytes())?;
    let line = print_number(alloc, one.line)?;
    joined(alloc, &[file.as_bytes(), b":", line.as_bytes()])
}

fn tap_line(alloc: Global, number: usize, one: &TestResult) -> M<Text>
    ensures { IfOk result (λ text. text ≡ tap_line number one.now) }
{
    let number = print_number(alloc, number)?;
    let place = tap_place(alloc, one)?;
    let name = tap_name(alloc, one.name.as_bytes())?;
    joined(
        alloc,
        &[
            tap_head(one.passed),
            number.as_bytes(),
            b" - ",
            place.as_bytes(),
            b" ",
            name.as_bytes(),
            b"\n",
        ],
    )
}

fn tap_one(alloc: Global, number: usize, one: &TestResult) -> M<Text>
    ensures { IfOk result (λ text. text ≡ tap_one number one.now) }
{
    let line = tap_line(alloc, number, one)?;
    let failure = ascii_lines(alloc, b"# ", one.failure.as_slice())?;
    joined(alloc, &[line.as_bytes(), failure.as_bytes()])
}

// A line for each test, from number 1 on.
fn tap_all(alloc: Global, results: &[TestResult]) -> M<Text>
    ensures { IfOk result (λ text. text ≡ tap_from 1 results.now) }
{
    let mut text = Text::empty(alloc);
    for (at, one) in results.iter().enumerate() {
        let part = tap_one(alloc, at + 1, one)?;
        text.push(part.as_bytes())?;
    }
    Ok(text)
}

/// How many tests there are, and a line for each, with those of its failure as remarks behind it.
pub(crate) fn tap_text(alloc: Global, results: &[TestResult]) -> M<Text>
    ensures { IfOk result (λ text. text ≡ tap_text results.now) }
{
    let count = print_number(alloc, results.len())?;
    let all = tap_all(alloc, results)?;
    joined(alloc, &[b"1..", count.as_bytes(), b"\n", all.as_bytes()])
}
