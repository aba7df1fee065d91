// Notes from the words behind the number of their connection.

ghost use Rattle.std.specs.Prelude.{◌≡◌, IfOk, map};
ghost use Rattle.journal_value.specs.Words.{OfVerb};
ghost use Rattle.journal_value.specs.declared.note_verb.NoteVerb.{NoteVerb};

use crate::NoteVerb;
use crate::choices::{kept_of, side_of};
use crate::history::history_note;
use crate::words::{addr_word, cause_of, number_word};
use core_events::Note;
use px_bytes::M;
use std::alloc::Global;

/// The note of these words, other than that of a logged line.
pub fn note_of(alloc: Global, verb: NoteVerb, conn: u32, rest: &[&[u8]]) -> M<Option<Note>>
    requires { ¬ (verb ≡ NoteVerb.Log) }
    ensures { IfOk result (OfVerb verb conn (map (λ w. w.now) rest.now)) }
{
    match verb {
        NoteVerb::History => history_note(alloc, conn, rest),
        NoteVerb::Connect => Ok(connect_note(conn, rest)),
        NoteVerb::Sleep => Ok(sleep_note(conn, rest)),
        NoteVerb::Pass => Ok(pass_note(conn, rest)),
        NoteVerb::Fired => Ok(fired_note(conn, rest)),
        NoteVerb::Reuse => Ok(reuse_note(conn, rest)),
        NoteVerb::Finish => Ok(finish_note(conn, rest)),
        NoteVerb::HalfClose => Ok(half_close_note(conn, rest)),
        NoteVerb::CloseServer => Ok(close_server_note(conn, rest)),
        NoteVerb::CloseClient => Ok(close_client_note(conn, rest)),
        _ => Ok(ended_note(conn, rest)),
    }
}

fn connect_note(conn: u32, rest: &[&[u8]]) -> Option<Note>
    ensures { OfVerb NoteVerb.Connect conn (map (λ w. w.now) rest.now) result }
{
    let [to] = rest else {
        return None;
    };
    let to = addr_word(to)?;
    Some(Note::Connect { conn, to })
}

fn sleep_note(conn: u32, rest: &[&[u8]]) -> Option<Note>
    ensures { OfVerb NoteVerb.Sleep conn (map (λ w. w.now) rest.now) result }
{
    let [until] = rest else {
        return None;
    };
    let until = number_word(until)?;
    Some(Note::Sleep { conn, until })
}

fn pass_note(conn: u32, rest: &[&[u8]]) -> Option<Note>
    ensures { OfVerb NoteVerb.Pass conn (map (λ w. w.now) rest.now) result }
{
    let [side, n] = rest else {
        return None;
    };
    let side = side_of(side)?;
    let n = number_word(n)? as usize;
    Some(Note::Pass { conn, side, n })
}

fn fired_note(conn: u32, rest: &[&[u8]]) -> Option<Note>
    ensures { OfVerb NoteVerb.Fired conn (map (λ w. w.now) rest.now) result }
{
    let [side] = rest else {
        return None;
    };
    let side = side_of(side)?;
    Some(Note::Fired { conn, side })
}

fn reuse_note(conn: u32, rest: &[&[u8]]) -> Option<Note>
    ensures { OfVerb NoteVerb.Reuse conn (map (λ w. w.now) rest.now) result }
{
    let [kept] = rest else {
        return None;
    };
    let kept = kept_of(kept)?;
    Some(Note::Reuse { conn, kept })
}

fn finish_note(conn: u32, rest: &[&[u8]]) -> Option<Note>
    ensures { OfVerb NoteVerb.Finish conn (map (λ w. w.now) rest.now) result }
{
    let cause = cause_of(rest)?;
    Some(Note::Finish { conn, cause })
}

fn half_close_note(conn: u32, rest: &[&[u8]]) -> Option<Note>
    ensures { OfVerb NoteVerb.HalfClose conn (map (λ w. w.now) rest.now) result }
{
    let [side] = rest else {
        return None;
    };
    let side = side_of(side)?;
    Some(Note::HalfClose { conn, side })
}

fn close_server_note(conn: u32, rest: &[&[u8]]) -> Option<Note>
    ensures { OfVerb NoteVerb.CloseServer conn (map (λ w. w.now) rest.now) result }
{
    if rest.is_empty() {
        Some(Note::CloseServer { conn })
    } else {
        None
    }
}

fn close_client_note(conn: u32, rest: &[&[u8]]) -> Option<Note>
    ensures { OfVerb NoteVerb.CloseClient conn (map (λ w. w.now) rest.now) result }
{
    if rest.is_empty() {
        Some(Note::CloseClient { conn })
    } else {
        None
    }
}

fn ended_note(conn: u32, rest: &[&[u8]]) -> Option<Note>
    ensures { OfVerb NoteVerb.Ended conn (map (λ w. w.now) rest.now) result }
{
    let [dropped] = rest else {
        return None;
    };
    let dropped = number_word(dropped)? as usize;
    Some(Note::Ended { conn, dropped })
}
