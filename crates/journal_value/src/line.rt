// A line of a journal.

ghost use Rattle.std.specs.Prelude.{◌≡◌, IfErr, IfOk, Option};
ghost use Rattle.journal_value.specs.Journal.{BeginsNote, Fails, FitsLine, Tells};
ghost use Rattle.journal_value.specs.declared.journal.JournalLine.{JournalLine};

use crate::journal::JournalLine;
use crate::note::read_note;
use journal_text::{LineKind, line_event};
use std::alloc::Global;

/// What a line tells, which is given without its LF.
pub(crate) fn line_of(alloc: Global, line: &[u8]) -> Result<Option<JournalLine>, LineKind>
    ensures told { IfOk result (Tells line.now) }
    ensures only_told { (told : Option JournalLine) → FitsLine told → Tells line.now told
        → IfOk result (λ found. found ≡ told) }
    ensures fault { IfErr result (Fails line.now) }
{
    match line {
        [b'>', ..] => note_of(alloc, line),
        _ => event_of(alloc, line),
    }
}

fn note_of(alloc: Global, line: &[u8]) -> Result<Option<JournalLine>, LineKind>
    requires { BeginsNote line.now }
    ensures told { IfOk result (Tells line.now) }
    ensures only_told { (told : Option JournalLine) → FitsLine told → Tells line.now told
        → IfOk result (λ found. found ≡ told) }
    ensures fault { IfErr result (Fails line.now) }
{
    match read_note(alloc, line)? {
        Some(note) => Ok(Some(JournalLine::Note(note))),
        None => Err(LineKind::NotNote),
    }
}

fn event_of(alloc: Global, line: &[u8]) -> Result<Option<JournalLine>, LineKind>
    requires { ¬ BeginsNote line.now }
    ensures told { IfOk result (Tells line.now) }
    ensures only_told { (told : Option JournalLine) → FitsLine told → Tells line.now told
        → IfOk result (λ found. found ≡ told) }
    ensures fault { IfErr result (Fails line.now) }
{
    match line_event(alloc, line)? {
        Some(event) => Ok(Some(JournalLine::Event(event))),
        None => Ok(None),
    }
}
