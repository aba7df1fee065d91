// Notes of shared calls.

ghost use Rattle.std.specs.Prelude.{◌≡◌, ◌∷◌, [], IfOk, List, ℕ, map};
ghost use Rattle.px_bytes.specs.declared.fault.Reply.{Reply};
ghost use Rattle.journal_value.specs.Exact.{Exact};
ghost use Rattle.journal_value.specs.Words.{IsReply, OfVerb, reply_words};
ghost use Rattle.journal_value.specs.declared.note_verb.NoteVerb.{NoteVerb};

use crate::choices::kind_of;
use crate::texts::{call_word, hex_word};
use crate::words::number_word;
use core_events::Note;
use px_bytes::{M, Reply, TclFault};
use std::alloc::Global;

/// The note of a shared call, by its moment, the call and its answer.
pub fn history_note(alloc: Global, conn: u32, rest: &[&[u8]]) -> M<Option<Note>>
    ensures { IfOk result (OfVerb NoteVerb.History conn (map (λ w. w.now) rest.now)) }
{
    let [moment, call, answer @ ..] = rest else {
        return Ok(None);
    };
    let Some(moment) = number_word(moment) else {
        return Ok(None);
    };
    let Some(call) = call_word(alloc, call)? else {
        return Ok(None);
    };
    let Some(reply) = reply_of(alloc, answer)? else {
        return Ok(None);
    };
    Ok(Some(Note::History {
        conn,
        moment,
        call,
        reply,
    }))
}

fn reply_of(alloc: Global, rest: &[&[u8]]) -> M<Option<Reply>>
    ensures { IfOk result (Exact Reply (List (List ℕ)) reply_words IsReply
        (map (λ w. w.now) rest.now)) }
{
    match rest {
        [word, value] => value_reply(alloc, word, value),
        [word, kind, text] => fault_reply(alloc, word, kind, text),
        _ => Ok(None),
    }
}

fn value_reply(alloc: Global, word: &[u8], value: &[u8]) -> M<Option<Reply>>
    ensures { IfOk result (Exact Reply (List (List ℕ)) reply_words IsReply
        (word.now ∷ value.now ∷ [])) }
{
    if word != b"ok".as_slice() {
        return Ok(None);
    }
    Ok(match hex_word(alloc, value)? {
        Some(value) => Some(Reply::Ok(value)),
        None => None,
    })
}

fn fault_reply(alloc: Global, word: &[u8], kind: &[u8], text: &[u8]) -> M<Option<Reply>>
    ensures { IfOk result (Exact Reply (List (List ℕ)) reply_words IsReply
        (word.now ∷ kind.now ∷ text.now ∷ [])) }
{
    if word != b"fault".as_slice() {
        return Ok(None);
    }
    let Some(kind) = kind_of(kind) else {
        return Ok(None);
    };
    Ok(match hex_word(alloc, text)? {
        Some(text) => Some(Reply::Fault(TclFault { kind, text })),
        None => None,
    })
}
