// A journal as a value.

ghost use Rattle.std.specs.Prelude.{◌≡◌, IfErr, IfOk, List};
ghost use Rattle.journal_value.specs.Journal.{AllFit, FirstFault, IsJournal};
ghost use Rattle.journal_value.specs.declared.journal.JournalLine.{JournalLine};

use crate::reader::JournalReader;
use core_events::{Event, Note};
use journal_text::LineKind;
use px_bytes::{Memory, Seq};
use std::alloc::{AllocError, Global};

/// What a line of a journal tells.
#[derive(Drop)]
pub enum JournalLine {
    /// An event came.
    Event(Event),
    /// This was noted of the event before; of the start, where there was none.
    Note(Note),
}

/// What the lines of a journal tell, in order: the notes of the start, then each event before its
/// notes.
pub type JournalLines = Seq<JournalLine>;

/// The first faulty line, the first line being 1, and what is wrong with it.
#[derive(Clone, Copy, PartialEq, Eq)]
pub struct LineFault {
    pub line: u64,
    pub kind: LineKind,
}

impl From<Memory> for LineFault {
    ghost use Rattle.journal_text.specs.declared.line_kind.LineKind.TheVariants.{Memory as NoMemory};

    ghost from_gives = { λ _ e. e.kind ≡ NoMemory };

    fn from(_: Memory) -> Self {
        LineFault {
            line: 0,
            kind: LineKind::Memory,
        }
    }
}

impl From<AllocError> for LineFault {
    ghost use Rattle.journal_text.specs.declared.line_kind.LineKind.TheVariants.{Memory as NoMemory};

    ghost from_gives = { λ _ e. e.kind ≡ NoMemory };

    fn from(_: AllocError) -> Self {
        LineFault {
            line: 0,
            kind: LineKind::Memory,
        }
    }
}

/// What the lines of a journal tell, each of which ends with LF. Lines that are empty or begin with
/// `#` tell nothing. A last line without LF is faulty.
pub fn read_journal(alloc: Global, text: &[u8]) -> Result<JournalLines, LineFault>
    ensures journal { IfOk result (IsJournal text.now) }
    ensures only_journal { (told : List JournalLine) → AllFit told → IsJournal text.now told
        → IfOk result (λ journal. journal ≡ told) }
    ensures fault { IfErr result (FirstFault text.now) }
{
    let mut reader = JournalReader::new(text);
    let mut journal = JournalLines::new(alloc);
    while let Some(line) = reader.next(alloc)? {
        journal.push(line)?;
    }
    Ok(journal)
}
