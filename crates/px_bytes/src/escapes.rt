// Bytes as printable text.

ghost use Rattle.std.specs.Prelude.{◌≡◌, IfOk};
ghost use Rattle.std.specs.List.{position_or_len};
ghost use Rattle.px_bytes.specs.Escapes.{needs_escape, digits_escape, escaped};

use crate::hexadecimal::hex_pair;
use crate::{M, Text};
use std::alloc::Global;

/// Bytes from a space to `~` other than `\` as they are, and each other byte as `\x` with two
/// digits in lower case.
pub fn escape(alloc: Global, bytes: &[u8]) -> M<Text>
    ensures { IfOk result (λ text. text ≡ escaped bytes.now) }
{
    let mut out = Vec::with_capacity(alloc, bytes.len())?;
    let mut rest = bytes;
    loop {
        let (plain, other) = rest.split_at(plain_len(rest));
        out.extend_from_slice(plain)?;
        let [byte, after @ ..] = other else {
            return Ok(Text::from_vec(out));
        };
        out.extend_from_slice(&digits_escape(*byte))?;
        rest = after;
    }
}

// How many bytes at the front stand as they are.
fn plain_len(bytes: &[u8]) -> usize
    ensures { result ≡ position_or_len needs_escape bytes.now }
{
    bytes
        .iter()
        .position(|byte| needs_escape(*byte))
        .unwrap_or(bytes.len())
}

fn needs_escape(byte: u8) -> bool
    ensures { result ≡ needs_escape byte }
{
    byte < b' ' || byte > b'~' || byte == b'\\'
}

fn digits_escape(byte: u8) -> [u8; 4]
    ensures { result ≡ digits_escape byte }
{
    let [high, low] = hex_pair(byte);
    [b'\\', b'x', high, low]
}
