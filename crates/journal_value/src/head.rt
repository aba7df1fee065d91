// How the line of a note begins.

ghost use Rattle.std.specs.Prelude.{◌≡◌, ◌≤◌, ℕ, List, IfSome, IfNone, option_map};
ghost use Rattle.journal_value.specs.Words.{IsConn, more_words, noted_words, words_of};
ghost use Rattle.journal_value.specs.declared.note_verb.NoteVerb.{NoteVerb};

use crate::NoteVerb;
use crate::cut::cut;
use crate::note_verb::read_verb;
use px_bytes::read_decimal;

/// The verb and the connection of a note's line, and what stands behind the next blank.
#[derive(Clone, Copy)]
pub struct Head<'a> {
    pub verb: NoteVerb,
    pub conn: u32,
    pub rest: Option<&'a [u8]>,
}

/// How the line begins; None where no note's line does so.
pub fn head_of(line: &[u8]) -> Option<Head<'_>>
    ensures found { IfSome result (λ head. words_of line.now
        ≡ noted_words head.verb head.conn (more_words (option_map (λ x. x.now) head.rest))) }
    ensures conn { IfSome result (λ head. IsConn head.conn) }
    ensures none { IfNone result ((verb : NoteVerb) (conn : ℕ) (behind : List (List ℕ)) → IsConn conn
        → ¬ (words_of line.now ≡ noted_words verb conn behind)) }
{
    let (mark, rest) = cut(line);
    if mark != b">".as_slice() {
        return None;
    }
    let (verb, rest) = cut(rest?);
    let verb = read_verb(verb)?;
    let (conn, rest) = cut(rest?);
    let conn = read_decimal(conn, u64::from(u32::MAX))? as u32;
    Some(Head { verb, conn, rest })
}
