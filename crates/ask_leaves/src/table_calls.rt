// The calls of a session table, one after another.

use px_bytes::{Memory, Raise};
use questions::Question;
use session_table::{SessionTable, check_words};

/// The limit of live rows, and calls, each with its moment and the number of its words before them.
pub fn answer(question: &mut Question<'_>) {
    let limit = question.number(1 << 31) as u32;
    let mut table = SessionTable::new(question.alloc, limit);
    for _ in 0..question.left() {
        if question.has_more() {
            call(question, &mut table);
        }
    }
    question.say("live=");
    question.put_number(table.live() as u64);
}

fn call(question: &mut Question<'_>, table: &mut SessionTable) {
    let moment = question.number(1 << 53);
    let count = question.number(1_000) as usize;
    let words = question.texts(count);
    let reply = table.answer(question.alloc, words.as_slice(), moment);
    question.say_reply(&reply);
}

/// The rows behind the same calls, as they are dumped, in hexadecimal.
pub fn dump_answer(question: &mut Question<'_>) {
    let limit = question.number(1 << 31) as u32;
    let mut table = SessionTable::new(question.alloc, limit);
    for _ in 0..question.left() {
        if question.has_more() {
            make(question, &mut table);
        }
    }
    match table.dump(question.alloc) {
        Ok(text) if text.as_bytes().is_empty() => question.say("-"),
        text => question.say_made_hex(text),
    }
}

// A call whose words are one is answered, and its reply isn't told.
fn make(question: &mut Question<'_>, table: &mut SessionTable) {
    let moment = question.number(1 << 53);
    let count = question.number(1_000) as usize;
    let words = question.texts(count);
    match check_words(question.alloc, words.as_slice()) {
        Ok(()) => {
            let reply = table.answer(question.alloc, words.as_slice(), moment);
            question.note(reply.map(|_| ()));
        }
        Err(Raise::Fault(_)) => {}
        Err(Raise::Memory) => question.note(Err(Memory)),
    }
}

/// The words behind `table`, tested.
pub fn check_answer(question: &mut Question<'_>) {
    let words = question.texts(question.left());
    let checked = check_words(question.alloc, words.as_slice());
    question.say_done(&checked);
}
