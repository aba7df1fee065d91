// The words of a question.

use hex::FromHexError;
use plain_eval::Replies;
use px_bytes::{FaultKind, M, Memory, Reply, TclFault, Text, read_decimal};
use std::alloc::Global;

/// The text that a word writes: parts with `+` between, each two hexadecimal digits a byte, or one
/// byte and behind `*` how often it stands; `-` for no bytes.
pub fn read_text(alloc: Global, word: &str) -> M<Option<Text>> {
    let mut text = Text::empty(alloc);
    match read_into(alloc, word, &mut text) {
        Ok(true) => Ok(Some(text)),
        Ok(false) => {
            drop(text);
            Ok(None)
        }
        Err(memory) => {
            drop(text);
            Err(memory)
        }
    }
}

/// Adds the text that a word writes: whether it writes one.
pub fn read_into(alloc: Global, word: &str, text: &mut Text) -> M<bool> {
    if word == "-" {
        return Ok(true);
    }
    for part in word.split('+') {
        if !read_part(alloc, part, text)? {
            return Ok(false);
        }
    }
    Ok(true)
}

fn read_part(alloc: Global, part: &str, text: &mut Text) -> M<bool> {
    let Some((digits, count)) = part.split_once('*') else {
        return push_times(alloc, part, 1, text);
    };
    match read_decimal(count.as_bytes(), 2_000_000) {
        Some(count) => push_times(alloc, digits, count, text),
        None => Ok(false),
    }
}

fn push_times(alloc: Global, digits: &str, count: u64, text: &mut Text) -> M<bool> {
    match hex::decode(alloc, digits) {
        Ok(bytes) => {
            let pushed = push_all(text, &bytes, count);
            drop(bytes);
            pushed?;
            Ok(true)
        }
        Err(FromHexError::OutOfMemory) => Err(Memory),
        Err(_) => Ok(false),
    }
}

fn push_all(text: &mut Text, bytes: &[u8], count: u64) -> M<()> {
    for _ in 0..count {
        text.push(bytes)?;
    }
    Ok(())
}

/// The replies that words write.
pub fn read_replies(alloc: Global, words: &[&str]) -> M<Option<Replies>> {
    let mut replies = Replies::new(alloc);
    for word in words {
        let Some(reply) = read_reply(alloc, word)? else {
            return Ok(None);
        };
        replies.push(reply)?;
    }
    Ok(Some(replies))
}

// The reply that a word writes: `ok:TEXT`, or `full:TEXT`, a fault of a full table.
fn read_reply(alloc: Global, word: &str) -> M<Option<Reply>> {
    match word.split_once(':') {
        Some(("ok", text)) => ok_reply(read_text(alloc, text)),
        Some(("full", text)) => full_reply(read_text(alloc, text)),
        _ => Ok(None),
    }
}

fn ok_reply(text: M<Option<Text>>) -> M<Option<Reply>> {
    match text? {
        Some(text) => Ok(Some(Reply::Ok(text))),
        None => Ok(None),
    }
}

fn full_reply(text: M<Option<Text>>) -> M<Option<Reply>> {
    match text? {
        Some(text) => Ok(Some(Reply::Fault(TclFault {
            kind: FaultKind::TableFull,
            text,
        }))),
        None => Ok(None),
    }
}
