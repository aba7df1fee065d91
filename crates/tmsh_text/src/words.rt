// Words, which are quoted where they are no plain tokens.

ghost use Rattle.std.specs.Prelude.{◌≡◌, IfOk};
ghost use Rattle.tmsh_text.specs.Words.{is_plain, quoted, quoted_byte, quoted_bytes, word};

use crate::items::joined;
use px_bytes::{M, Text, print_hex};
use std::alloc::Global;
use tmsh_read::is_mark;

// Whether no byte of a text ends a plain token.
fn is_plain(text: &[u8]) -> bool
    ensures { result ≡ is_plain text.now }
{
    for byte in text {
        if is_mark(*byte) {
            return false;
        }
    }
    true
}

fn quoted_byte(alloc: Global, byte: u8) -> M<Text>
    ensures { IfOk result (λ text. text ≡ quoted_byte byte) }
{
    if byte == b'"' || byte == b'\\' {
        return Text::new(alloc, &[b'\\', byte]);
    }
    if byte < b' ' || byte == 127 {
        let digits = print_hex(alloc, &[byte])?;
        return joined(alloc, &[b"\\x", digits.as_bytes()]);
    }
    Text::new(alloc, &[byte])
}

fn quoted_bytes(alloc: Global, bytes: &[u8]) -> M<Text>
    ensures { IfOk result (λ text. text ≡ quoted_bytes bytes.now) }
{
    let mut text = Text::empty(alloc);
    for byte in bytes {
        let part = quoted_byte(alloc, *byte)?;
        text.push(part.as_bytes())?;
    }
    Ok(text)
}

fn quoted(alloc: Global, text: &[u8]) -> M<Text>
    ensures { IfOk result (λ made. made ≡ quoted text.now) }
{
    let inside = quoted_bytes(alloc, text)?;
    joined(alloc, &[b"\"", inside.as_bytes(), b"\""])
}

/// A text as one token.
pub(crate) fn word(alloc: Global, text: &[u8]) -> M<Text>
    ensures { IfOk result (λ made. made ≡ word text.now) }
{
    if !text.is_empty() && is_plain(text) {
        return Text::new(alloc, text);
    }
    quoted(alloc, text)
}
