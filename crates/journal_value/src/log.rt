// Notes of logged lines.

ghost use Rattle.std.specs.Prelude.{◌≡◌, IfOk, option_map};
ghost use Rattle.journal_value.specs.Words.{OfVerb, more_words, words_of};
ghost use Rattle.journal_value.specs.declared.note_verb.NoteVerb.{NoteVerb};

use crate::texts::escaped_text;
use core_events::Note;
use px_bytes::M;
use std::alloc::Global;

/// The note of a logged line, whose text may have blanks.
pub fn log_note(alloc: Global, conn: u32, rest: Option<&[u8]>) -> M<Option<Note>>
    ensures { IfOk result (OfVerb NoteVerb.Log conn
        (more_words (option_map (λ x. x.now) rest.entry))) }
{
    match rest {
        Some(text) => logged(alloc, conn, text),
        None => Ok(None),
    }
}

fn logged(alloc: Global, conn: u32, text: &[u8]) -> M<Option<Note>>
    ensures { IfOk result (OfVerb NoteVerb.Log conn (words_of text.now)) }
{
    match escaped_text(alloc, text)? {
        Some(text) => Ok(Some(Note::Log { conn, text })),
        None => Ok(None),
    }
}
