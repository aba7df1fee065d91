// The lines of a plan.

ghost use Rattle.std.specs.Prelude.{◌≡◌, IfOk, map};
ghost use Rattle.journal_text.specs.Line.{is_blank, words_of};
ghost use Rattle.table_mirror.specs.Plans.{IsNumber, ReadsPlan, VerbReads, WordsRead, is_comment};
ghost use Rattle.table_mirror.specs.Plans.{line_of, verb_of};

use crate::told::is_comment;
use journal_text::LineKind;
use px_bytes::read_decimal;
use std::alloc::{AllocError, Global};

/// The first word of a line.
#[derive(Clone, Copy)]
pub enum PlanVerb {
    Send,
    Deliver,
}

/// A step of a plan.
#[derive(Clone, Copy)]
pub enum PlanLine {
    /// The sender sends the entry that stands so many behind the first that isn't acknowledged.
    Send(u64),
    /// The packet of this number arrives, the first that was sent being 1.
    Deliver(u64),
}

/// What a line says, which is given without its LF; none where it is empty or begins with `#`.
pub(crate) fn read_line(alloc: Global, line: &[u8]) -> Result<Option<PlanLine>, LineKind>
    ensures { ReadsPlan line.now result }
{
    if is_comment(line) {
        return Ok(None);
    }
    let words = words_of(alloc, line)?;
    words_line(&words)
}

fn words_of(alloc: Global, line: &[u8]) -> Result<Vec<&[u8]>, AllocError>
    ensures { IfOk result (λ words. map (λ w. w.now) words.items ≡ words_of line.now) }
{
    line.split(|byte| is_blank(*byte)).collect(alloc)
}

fn is_blank(byte: u8) -> bool
    ensures { result ≡ is_blank byte }
{
    byte == b' ' || byte == b'\t'
}

fn words_line(words: &[&[u8]]) -> Result<Option<PlanLine>, LineKind>
    ensures { WordsRead (map (λ w. w.now) words.now) result }
{
    match words {
        [first, number] => verb_line(verb_of(first), number),
        _ => Err(LineKind::NotEvent),
    }
}

fn verb_of(word: &[u8]) -> Option<PlanVerb>
    ensures { result ≡ verb_of word.now }
{
    if word == b"send".as_slice() {
        return Some(PlanVerb::Send);
    }
    if word == b"deliver".as_slice() {
        return Some(PlanVerb::Deliver);
    }
    None
}

fn verb_line(verb: Option<PlanVerb>, number: &[u8]) -> Result<Option<PlanLine>, LineKind>
    ensures { VerbReads verb number.now result }
{
    let Some(verb) = verb else {
        return Err(LineKind::NotEvent);
    };
    match number_of(number) {
        Some(n) => Ok(Some(line_of(verb, n))),
        None => Err(LineKind::BadNumber),
    }
}

fn number_of(word: &[u8]) -> Option<u64>
    ensures { IsNumber word.now result }
{
    read_decimal(word, u64::MAX)
}

fn line_of(verb: PlanVerb, n: u64) -> PlanLine
    ensures { result ≡ line_of verb n }
{
    match verb {
        PlanVerb::Send => PlanLine::Send(n),
        PlanVerb::Deliver => PlanLine::Deliver(n),
    }
}
