// What notes tell a test.

ghost use Rattle.std.specs.Prelude.{◌≡◌, ◌∷◌, ◌++◌, [], IfOk, OnOk, flat_map};
ghost use Rattle.test_run.specs.Told.{called, told};

use core_events::Note;
use px_bytes::{M, Seq, Text, Texts};
use std::alloc::Global;
use test_past::RunEntry;

fn copied(alloc: Global, texts: &[Text]) -> M<Texts>
    ensures { IfOk result (λ copy. copy ≡ texts.now) }
{
    let mut copy = Texts::new(alloc);
    for text in texts {
        copy.push(text.copy()?)?;
    }
    Ok(copy)
}

// Adds a call of the session table.
fn add_called(alloc: Global, entries: &mut Seq<RunEntry>, moment: u64, call: &[Text]) -> M<()>
    ensures { OnOk result (entries.new ≡ entries.old ++ called moment call.now) }
{
    let [first, rest @ ..] = call else {
        return Ok(());
    };
    if first.as_bytes() != b"table".as_slice() {
        return Ok(());
    }
    let words = copied(alloc, rest)?;
    entries.push(RunEntry::Called { moment, words })
}

fn add_logged(entries: &mut Seq<RunEntry>, conn: u32, text: &Text) -> M<()>
    ensures { OnOk result (entries.new ≡ entries.old ++ RunEntry.Logged conn text.now ∷ []) }
{
    let text = text.copy()?;
    entries.push(RunEntry::Logged { conn, text })
}

// Adds what a note tells.
fn add_note(alloc: Global, entries: &mut Seq<RunEntry>, note: &Note) -> M<()>
    ensures { OnOk result (entries.new ≡ entries.old ++ told note.now) }
{
    match note {
        Note::Connect { conn, to } => entries.push(RunEntry::Asked {
            conn: *conn,
            to: *to,
        }),
        Note::History { moment, call, .. } => {
            add_called(alloc, entries, *moment, call.as_slice())
        }
        Note::Log { conn, text } => add_logged(entries, *conn, text),
        Note::Finish { conn, cause } => entries.push(RunEntry::Finished {
            conn: *conn,
            cause: *cause,
        }),
        Note::Ended { conn, .. } => entries.push(RunEntry::Over { conn: *conn }),
        _ => Ok(()),
    }
}

/// Adds what notes tell.
pub(crate) fn add_notes(alloc: Global, entries: &mut Seq<RunEntry>, notes: &[Note]) -> M<()>
    ensures { OnOk result (entries.new ≡ entries.old ++ flat_map told notes.now) }
{
    for note in notes {
        add_note(alloc, entries, note)?;
    }
    Ok(())
}
