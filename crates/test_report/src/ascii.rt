// Bytes as ASCII.

ghost use Rattle.std.specs.Prelude.{◌≡◌, IfOk};
ghost use Rattle.test_report.specs.Parts.{ascii, ascii_byte, ascii_line, ascii_lines, is_printable};

use crate::joined::joined;
use px_bytes::{M, Text, escape};
use std::alloc::Global;

fn is_printable(byte: u8) -> bool
    ensures { result ≡ is_printable byte }
{
    byte >= b' ' && byte <= b'~'
}

fn ascii_byte(alloc: Global, byte: u8) -> M<Text>
    ensures { IfOk result (λ text. text ≡ ascii_byte byte) }
{
    if is_printable(byte) {
        return Text::new(alloc, &[byte]);
    }
    escape(alloc, &[byte])
}

/// Printable bytes as they are, each other one as `\x` and two digits.
pub(crate) fn ascii(alloc: Global, bytes: &[u8]) -> M<Text>
    ensures { IfOk result (λ text. text ≡ ascii bytes.now) }
{
    let mut text = Text::empty(alloc);
    for byte in bytes {
        let part = ascii_byte(alloc, *byte)?;
        text.push(part.as_bytes())?;
    }
    Ok(text)
}

fn ascii_line(alloc: Global, before: &[u8], line: &[u8]) -> M<Text>
    ensures { IfOk result (λ text. text ≡ ascii_line before.now line.now) }
{
    let shown = ascii(alloc, line)?;
    joined(alloc, &[before, shown.as_bytes(), b"\n"])
}

/// Lines, each behind the same bytes.
pub(crate) fn ascii_lines(alloc: Global, before: &[u8], lines: &[Text]) -> M<Text>
    ensures { IfOk result (λ text. text ≡ ascii_lines before.now lines.now) }
{
    let mut text = Text::empty(alloc);
    for line in lines {
        let part = ascii_line(alloc, before, line.as_bytes())?;
        text.push(part.as_bytes())?;
    }
    Ok(text)
}
