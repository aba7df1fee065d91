// Bytes read from hexadecimal.

ghost use Rattle.std.specs.Prelude.{◌≡◌, IfOk};
ghost use Rattle.px_bytes.specs.HexRead.{ReadsPrinted, hex_byte, hex_bytes};

use crate::{M, Text};
use std::alloc::Global;

/// The bytes of pairs of hexadecimal digits of either case. None where the text isn't such pairs,
/// and where it is empty.
pub fn read_hex(alloc: Global, text: &[u8]) -> M<Option<Text>>
    ensures value { IfOk result (λ bytes. bytes ≡ hex_bytes text.now) }
    ensures reads_printed { IfOk result (λ read. ReadsPrinted text.now read) }
{
    read_pairs(alloc, text)
}

fn read_pairs(alloc: Global, text: &[u8]) -> M<Option<Text>>
    ensures { IfOk result (λ bytes. bytes ≡ hex_bytes text.now) }
{
    if text.is_empty() {
        return Ok(None);
    }
    let mut out = Vec::with_capacity(alloc, text.len() / 2)?;
    let mut rest = text;
    while let [high, low, more @ ..] = rest {
        let Some(byte) = hex_byte(*high, *low) else {
            return Ok(None);
        };
        out.push(byte)?;
        rest = more;
    }
    Ok(rest.is_empty().then_some(Text::from_vec(out)))
}

// The byte of two digits.
fn hex_byte(high: u8, low: u8) -> Option<u8>
    ensures { result ≡ hex_byte high low }
{
    let high = char::from(high).to_digit(16)?;
    let low = char::from(low).to_digit(16)?;
    Some((16 * high + low) as u8)
}
