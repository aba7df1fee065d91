// Chunk lines.

ghost use Rattle.std.specs.Prelude.{◌≡◌, ◌+◌, ◌≤◌, length};
ghost use Rattle.std.specs.List.{position_or_len};
ghost use Rattle.http_frames.specs.ChunkLines.{digits_length, extension_length, is_line_end};
ghost use Rattle.http_frames.specs.ChunkLines.{IsWithin, crlf, line_by, line_of};

use crate::number::number_of;

/// What stands at the front of bytes where a chunk line is due.
#[derive(Clone, Copy, PartialEq, Eq)]
pub(crate) enum Line {
    /// A line of so many bytes, with its CRLF, and the size of the chunk.
    Whole { length: usize, size: u64 },
    /// The front of a line, or nothing.
    Begins,
    /// No line, whatever follows.
    Never,
}

/// The most digits of a size.
const MOST_DIGITS: usize = 15;

/// The most bytes of a line without its CRLF.
const MOST_TEXT: usize = 4094;

// How many hexadecimal digits stand at the front.
fn digits_length(bytes: &[u8]) -> usize
    ensures value { result ≡ digits_length bytes.now }
    ensures within { result ≤ length bytes.now }
{
    bytes
        .iter()
        .position(|byte| !byte.is_ascii_hexdigit())
        .unwrap_or(bytes.len())
}

// How many bytes stand before a CR or LF.
fn before_line_end(bytes: &[u8]) -> usize
    ensures value { result ≡ position_or_len is_line_end bytes.now }
    ensures within { result ≤ length bytes.now }
{
    bytes
        .iter()
        .position(|byte| *byte == b'\r' || *byte == b'\n')
        .unwrap_or(bytes.len())
}

fn extension_length(bytes: &[u8]) -> usize
    ensures value { result ≡ extension_length bytes.now }
    ensures within { result ≤ length bytes.now }
{
    match bytes {
        [b';', text @ ..] => 1 + before_line_end(text),
        _ => 0,
    }
}

// The line of a text, by what stands behind it.
fn line_by(size: u64, text: usize, rest: &[u8]) -> Line
    requires { text ≤ 4094 }
    ensures value { result ≡ line_by size text (crlf rest.now) }
    ensures within { IsWithin (text + length rest.now) result }
{
    match rest {
        [] | [b'\r'] => Line::Begins,
        [b'\r', b'\n', ..] => Line::Whole {
            length: text + 2,
            size,
        },
        _ => Line::Never,
    }
}

/// The chunk line at the front of bytes.
pub(crate) fn line_of(bytes: &[u8]) -> Line
    ensures value { result ≡ line_of bytes.now }
    ensures within { IsWithin (length bytes.now) result }
{
    if bytes.is_empty() {
        return Line::Begins;
    }
    let digits = digits_length(bytes);
    if digits == 0 || digits > MOST_DIGITS {
        return Line::Never;
    }
    let text = digits + extension_length(&bytes[digits..]);
    if text > MOST_TEXT {
        return Line::Never;
    }
    line_by(number_of(16, &bytes[..digits]), text, &bytes[text..])
}
