// Faulty files, whose place is marked.

use px_bytes::{M, Text};
use std::alloc::Global;
use test_text::{Stopped, read_test_file};

/// A faulty text: `@` stands before the faulty word, and isn't part of it.
pub(super) struct Faulty {
    pub(super) text: &'static str,
    pub(super) says: &'static str,
}

/// Whether a text between two others is told to be faulty where its mark stands, with these words.
pub(super) fn is_told(alloc: Global, front: &str, row: &Faulty, back: &str) -> M<bool> {
    let marked = row.text.as_bytes();
    let Some(at) = marked.iter().position(|byte| *byte == b'@') else {
        return Ok(false);
    };
    let mut text = Text::new(alloc, front.as_bytes())?;
    text.push(&marked[..at])?;
    text.push(&marked[at + 1..])?;
    text.push(back.as_bytes())?;
    match read_test_file(alloc, text.as_bytes()) {
        Err(Stopped::Fault(fault)) => {
            Ok(fault.place == front.len() + at && fault.kind.words() == row.says)
        }
        _ => Ok(false),
    }
}
