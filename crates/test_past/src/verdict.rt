// Whether a run passes.

ghost use Rattle.std.specs.Prelude.{◌≡◌, [], IfOk, None};
ghost use Rattle.test_past.specs.Verdicts.{closing, failing, failing_at, fails, left, left_of};
ghost use Rattle.test_past.specs.Verdicts.{unread_side, verdict_of};

use crate::entry::{ClientConn, RunEntry};
use crate::got::{got_by, question_at};
use crate::lines::has_fault;
use crate::questions::holds;
use px_bytes::{M, Side};
use std::alloc::Global;
use test_text::PlacedStep;

/// How a run ended.
#[derive(Clone, Copy, PartialEq, Eq)]
pub enum RunEnd {
    /// All of its moves were made.
    Done,
    /// An event of this step was refused.
    Refused { step: usize },
    /// Behind this step it did not come to rest.
    Restless { step: usize },
}

/// What a run comes to.
#[derive(Clone, Copy, PartialEq, Eq)]
pub enum Verdict {
    Passed,
    /// What the question of this step asks doesn't hold.
    Question { step: usize },
    /// It couldn't go on.
    Stopped,
    /// A side of a client took bytes that no question read.
    Unread { client: usize, side: Side },
    /// A fault that nothing caught was logged for a client, or by RULE_INIT, in a line that no
    /// question asked for.
    Fault { of: Option<usize> },
}

// Whether the question of a step doesn't hold of what was before it.
fn fails(
    alloc: Global,
    rows: u32,
    steps: &[PlacedStep],
    came: &[ClientConn],
    before: &[RunEntry],
    step: usize,
) -> M<bool>
    ensures { IfOk result (λ is. is
        ≡ fails rows steps.now came.now before.now step) }
{
    match question_at(steps, step) {
        Some(question) => Ok(!holds(alloc, rows, steps, came, question, before)?),
        None => Ok(false),
    }
}

// The step whose question is asked by an entry and doesn't hold.
fn failing_at(
    alloc: Global,
    rows: u32,
    steps: &[PlacedStep],
    came: &[ClientConn],
    before: &[RunEntry],
    entry: &RunEntry,
) -> M<Option<usize>>
    ensures { IfOk result (λ found. found
        ≡ failing_at rows steps.now came.now before.now entry.now) }
{
    let RunEntry::Asks { step } = entry else {
        return Ok(None);
    };
    if fails(alloc, rows, steps, came, before, *step)? {
        return Ok(Some(*step));
    }
    Ok(None)
}

// The first step whose question doesn't hold.
fn failing(
    alloc: Global,
    rows: u32,
    steps: &[PlacedStep],
    came: &[ClientConn],
    entries: &[RunEntry],
) -> M<Option<usize>>
    ensures { IfOk result (λ found. found ≡ failing rows steps.now came.now [] entries.now) }
{
    for (at, entry) in entries.iter().enumerate() {
        let found = failing_at(alloc, rows, steps, came, &entries[..at], entry)?;
        if found.is_some() {
            return Ok(found);
        }
    }
    Ok(None)
}

// The side of a client that took bytes which no question read.
fn unread_side(
    alloc: Global,
    steps: &[PlacedStep],
    came: &[ClientConn],
    client: usize,
    entries: &[RunEntry],
) -> M<Option<Side>>
    ensures { IfOk result (λ found. found ≡ unread_side steps.now came.now client entries.now) }
{
    let got = got_by(alloc, steps, came, Side::Client, client, entries)?;
    if !got.as_bytes().is_empty() {
        return Ok(Some(Side::Client));
    }
    let got = got_by(alloc, steps, came, Side::Server, client, entries)?;
    if !got.as_bytes().is_empty() {
        return Ok(Some(Side::Server));
    }
    Ok(None)
}

// What is left of a client at the end: bytes, or a fault.
fn left_of(
    alloc: Global,
    steps: &[PlacedStep],
    came: &[ClientConn],
    client: usize,
    entries: &[RunEntry],
) -> M<Option<Verdict>>
    ensures { IfOk result (λ found. found ≡ left_of steps.now came.now client entries.now) }
{
    if let Some(side) = unread_side(alloc, steps, came, client, entries)? {
        return Ok(Some(Verdict::Unread { client, side }));
    }
    if has_fault(steps, came, Some(client), entries) {
        let of = Some(client);
        return Ok(Some(Verdict::Fault { of }));
    }
    Ok(None)
}

// What is left at the end of the first of these clients of which something is.
fn left(
    alloc: Global,
    steps: &[PlacedStep],
    came: &[ClientConn],
    entries: &[RunEntry],
) -> M<Verdict>
    ensures { IfOk result (λ found. found ≡ left steps.now came.now came.now entries.now) }
{
    for one in came {
        if let Some(verdict) = left_of(alloc, steps, came, one.client, entries)? {
            return Ok(verdict);
        }
    }
    Ok(Verdict::Passed)
}

// What a run comes to whose questions all hold.
fn closing(
    alloc: Global,
    steps: &[PlacedStep],
    came: &[ClientConn],
    end: RunEnd,
    entries: &[RunEntry],
) -> M<Verdict>
    ensures { IfOk result (λ found. found ≡ closing steps.now came.now end entries.now) }
{
    if end != RunEnd::Done {
        return Ok(Verdict::Stopped);
    }
    if has_fault(steps, came, None, entries) {
        return Ok(Verdict::Fault { of: None });
    }
    left(alloc, steps, came, entries)
}

/// What a run comes to: it passes where it was made to its end, each question holds of what was before
/// it, all bytes that were taken were read, and each fault that nothing caught was asked for.
pub fn verdict_of(
    alloc: Global,
    rows: u32,
    steps: &[PlacedStep],
    came: &[ClientConn],
    end: RunEnd,
    entries: &[RunEntry],
) -> M<Verdict>
    ensures { IfOk result (λ found. found
        ≡ verdict_of rows steps.now came.now end entries.now) }
{
    match failing(alloc, rows, steps, came, entries)? {
        Some(step) => Ok(Verdict::Question { step }),
        None => closing(alloc, steps, came, end, entries),
    }
}
