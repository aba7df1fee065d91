// The next unit of a body.

ghost use Rattle.std.specs.Prelude.{◌≡◌, ◌≤◌, length};
ghost use Rattle.http_frames.specs.Looked.{EndLookedAt, LineLookedAt, LookedAt};
ghost use Rattle.http_frames.specs.NextUnit.{unit_of};
ghost use Rattle.http_frames.specs.Units.{IsChunkUnit, IsLineUnit, IsNextUnit, IsUnit, left_unit};
ghost use Rattle.http_frames.specs.Units.{piece, to_end};
ghost use Rattle.http_frames.specs.declared.state.BodyState.TheVariants.{Chunk, NextLine};

use crate::chunk_line::{Line, line_of};
use crate::last_chunk::{end_unit, waits};
use crate::state::BodyState;
use px_bytes::HttpFault;

/// What stands at the front of the bytes of a body.
#[derive(Clone, Copy, PartialEq, Eq)]
pub enum Unit {
    /// So many bytes of the body: one or more.
    Piece(usize),
    /// A chunk line of so many bytes, those of the CRLF before it included, and the size of its chunk.
    ChunkLine { line: usize, size: u64 },
    /// The end of the body, with so many bytes of its last line and trailers.
    Finished(usize),
    /// No unit yet; one may still come.
    NotYet,
    Fault(HttpFault),
}

// Bytes of a body or chunk of which so many are left.
fn piece(left: u64, held: &[u8], ended: bool) -> Unit
    ensures { result ≡ piece left held.now ended }
{
    if held.is_empty() {
        return waits(ended);
    }
    Unit::Piece(left.min(held.len() as u64) as usize)
}

fn left_unit(left: u64, held: &[u8], ended: bool) -> Unit
    ensures { result ≡ left_unit left held.now ended }
{
    match left {
        0 => Unit::Finished(0),
        left => piece(left, held, ended),
    }
}

fn to_end(held: &[u8], ended: bool) -> Unit
    ensures { result ≡ to_end held.now ended }
{
    match held.len() {
        0 if ended => Unit::Finished(0),
        0 => Unit::NotYet,
        size => Unit::Piece(size),
    }
}

// How many of the bytes that were looked at hold the whole of the chunk line behind so many bytes, or none.
#[tactic(auto, using(crate::proofs::LookedOnce::none_looked))]
fn behind_line(before: usize, held: &[u8], looked: usize) -> usize
    requires inside { looked ≤ length held.now }
    requires looked { LineLookedAt before held.now looked }
    ensures { EndLookedAt before held.now result }
{
    if looked < before {
        return 0;
    }
    match line_of(&held[before..looked]) {
        Line::Whole { .. } => looked,
        _ => 0,
    }
}

// A chunk line, behind so many bytes.
fn line_unit(before: usize, held: &[u8], looked: usize, ended: bool) -> Unit
    requires few { before ≤ 2 }
    requires inside { before ≤ length held.now }
    requires within { looked ≤ length held.now }
    requires looked { LineLookedAt before held.now looked }
    ensures { IsLineUnit before held.now ended result }
{
    match line_of(&held[before..]) {
        Line::Begins => waits(ended),
        Line::Never => Unit::Fault(HttpFault::BadChunk),
        Line::Whole { length, size: 0 } => {
            let looked = behind_line(before, held, looked);
            end_unit(before + (length - 2), held, looked, ended)
        }
        Line::Whole { length, size } => Unit::ChunkLine {
            line: before + length,
            size,
        },
    }
}

// The CRLF that closes a chunk, and a chunk line.
#[tactic(auto, using(crate::proofs::LookedOnce::next_looked))]
fn next_line_unit(held: &[u8], looked: usize, ended: bool) -> Unit
    requires within { looked ≤ length held.now }
    requires looked { LookedAt NextLine held.now looked }
    ensures { IsNextUnit held.now ended result }
{
    match held {
        [] | [b'\r'] => waits(ended),
        [b'\r', b'\n', ..] => line_unit(2, held, looked, ended),
        _ => Unit::Fault(HttpFault::BadChunk),
    }
}

fn chunk_unit(left: u64, held: &[u8], looked: usize, ended: bool) -> Unit
    requires within { looked ≤ length held.now }
    requires looked { LookedAt (Chunk left) held.now looked }
    ensures { IsChunkUnit left held.now ended result }
{
    match left {
        0 => next_line_unit(held, looked, ended),
        left => piece(left, held, ended),
    }
}

/// The next unit of the bytes that are held; `ended` tells that no more come.
#[tactic(auto, using(crate::proofs::LookedOnce::none_yet))]
pub fn next_unit(state: BodyState, held: &[u8], ended: bool) -> Unit
    ensures is_unit { IsUnit state held.now ended result }
    ensures value { result ≡ unit_of state held.now ended }
{
    next_unit_behind(state, held, 0, ended)
}

/// The same where so many bytes at the front were looked at before, when more was to come, and held no unit yet: the
/// end of trailers isn't looked for among these again.
#[tactic(auto, using(crate::proofs::LookedOnce::first_looked))]
pub fn next_unit_behind(state: BodyState, held: &[u8], looked: usize, ended: bool) -> Unit
    requires within { looked ≤ length held.now }
    requires looked { LookedAt state held.now looked }
    ensures is_unit { IsUnit state held.now ended result }
    ensures value { result ≡ unit_of state held.now ended }
{
    match state {
        BodyState::Left(left) => left_unit(left, held, ended),
        BodyState::FirstLine => line_unit(0, held, looked, ended),
        BodyState::Chunk(left) => chunk_unit(left, held, looked, ended),
        BodyState::NextLine => next_line_unit(held, looked, ended),
        BodyState::ToEnd => to_end(held, ended),
    }
}
