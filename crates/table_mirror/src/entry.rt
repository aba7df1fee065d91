// What the active table pushes.

ghost use Rattle.std.specs.Prelude.{◌≡◌, IfOk, flat_map, map};
ghost use Rattle.table_mirror.specs.Entries.{entries_of, entry_view};
ghost use Rattle.table_mirror.specs.Pushed.{entry_of, entry_of_call, is_of_table, is_pushed, pushed};

use core_events::Note;
use journal_value::JournalLine;
use px_bytes::{FaultKind, M, Reply, Text};
use std::alloc::Global;

/// A call of `table` that the active table answered: its moment in milliseconds, the words behind
/// `table`, and the reply.
#[derive(Clone, Copy)]
pub struct PushedEntry<'a> {
    pub moment: u64,
    pub words: &'a [Text],
    pub reply: &'a Reply,
}

/// The entries that are pushed of a journal, in order.
pub fn pushed_of(alloc: Global, told: &[JournalLine]) -> M<Vec<PushedEntry<'_>>>
    ensures { IfOk result (λ entries. map entry_view entries.items ≡ pushed told.now) }
{
    let mut entries = Vec::new(alloc);
    for line in told {
        if let Some(entry) = entry_of(line) {
            entries.push(entry)?;
        }
    }
    Ok(entries)
}

fn entry_of(line: &JournalLine) -> Option<PushedEntry<'_>>
    ensures { entries_of result ≡ entry_of line.now }
{
    match line {
        JournalLine::Note(
            Note::History {
                moment,
                call,
                reply,
                ..
            },
        ) => entry_of_call(*moment, call.as_slice(), reply),
        _ => None,
    }
}

fn entry_of_call<'a>(moment: u64, call: &'a [Text], reply: &'a Reply) -> Option<PushedEntry<'a>>
    ensures { entries_of result ≡ entry_of_call moment call.now reply.now }
{
    match call {
        [first, words @ ..] if first.as_bytes() == b"table".as_slice() && is_pushed(reply) => {
            Some(PushedEntry {
                moment,
                words,
                reply,
            })
        }
        _ => None,
    }
}

fn is_pushed(reply: &Reply) -> bool
    ensures { result ≡ is_pushed reply.now }
{
    match reply {
        Reply::Ok(_) => true,
        Reply::Fault(fault) => is_of_table(fault.kind),
    }
}

// Whether a table gives such a fault.
fn is_of_table(kind: FaultKind) -> bool
    ensures { result ≡ is_of_table kind }
{
    matches!(
        kind,
        FaultKind::NotWhole
            | FaultKind::OutOfRange
            | FaultKind::TooLong
            | FaultKind::Syntax
            | FaultKind::TableFull
    )
}
