// The words of calls.

use px_bytes::{M, Memory, Text, Texts, read_decimal, read_hex};
use questions::{Question, add_times};
use std::alloc::Global;

/// The texts that words write.
pub fn read_words(question: &mut Question<'_>, words: &[&str]) -> Texts {
    let mut texts = Texts::new(question.alloc);
    for word in words {
        let text = read_word(question, word);
        question.note(texts.push(text));
    }
    texts
}

/// The text that a word writes: `%` and two hexadecimal digits a byte, `%HH*N` for a byte N times,
/// `%` alone for no bytes; another word is itself.
pub fn read_word(question: &mut Question<'_>, word: &str) -> Text {
    match word.strip_prefix('%') {
        Some(code) => read_code(question, code),
        None => question.literal(word),
    }
}

fn read_code(question: &mut Question<'_>, code: &str) -> Text {
    let (digits, count) = code.split_once('*').unwrap_or((code, "1"));
    let count = read_decimal(count.as_bytes(), 2_000_000).unwrap_or(0);
    let bytes = read_hex(question.alloc, digits.as_bytes());
    let mut text = Text::empty(question.alloc);
    add_read(question, &mut text, &bytes, count);
    text
}

fn add_read(question: &mut Question<'_>, text: &mut Text, bytes: &M<Option<Text>>, count: u64) {
    match bytes {
        Ok(Some(bytes)) if count < 1_024 => question.note(add_times(text, bytes.as_bytes(), count)),
        Ok(Some(bytes)) => question.note(add_blocks(question.alloc, text, bytes, count)),
        Ok(None) => {}
        Err(Memory) => question.refuse(),
    }
}

// Blocks of 1,024 times, and what is left.
fn add_blocks(alloc: Global, text: &mut Text, bytes: &Text, count: u64) -> M<()> {
    let mut block = Text::empty(alloc);
    add_times(&mut block, bytes.as_bytes(), 1_024)?;
    add_times(text, block.as_bytes(), count / 1_024)?;
    add_times(text, bytes.as_bytes(), count % 1_024)
}
