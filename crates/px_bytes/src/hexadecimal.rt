// Bytes in hexadecimal.

ghost use Rattle.std.specs.Prelude.{◌≡◌, ◌<◌, IfOk};
ghost use Rattle.std.specs.Char.{digit_char};
ghost use Rattle.px_bytes.specs.Hexadecimal.{hex_pair, hex_text};

use crate::{M, Text};
use std::alloc::Global;

/// Two digits in lower case for each byte, and `-` for no bytes.
pub fn print_hex(alloc: Global, bytes: &[u8]) -> M<Text>
    ensures { IfOk result (λ text. text ≡ hex_text bytes.now) }
{
    if bytes.is_empty() {
        return Text::new(alloc, b"-");
    }
    let mut out = Vec::with_capacity(alloc, bytes.len().saturating_mul(2))?;
    for byte in bytes {
        out.extend_from_slice(&hex_pair(*byte))?;
    }
    Ok(Text::from_vec(out))
}

/// The two digits of a byte.
pub(crate) fn hex_pair(byte: u8) -> [u8; 2]
    ensures { result ≡ hex_pair byte }
{
    [hex_digit(byte / 16), hex_digit(byte % 16)]
}

fn hex_digit(value: u8) -> u8
    requires { value < 16 }
    ensures { result ≡ digit_char value }
{
    if value < 10 {
        b'0' + value
    } else {
        b'a' + (value - 10)
    }
}
