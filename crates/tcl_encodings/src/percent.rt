// The commands `URI::encode` and `URI::decode`.

ghost use Rattle.std.specs.Prelude.{◌≡◌, ◌<◌, true, [], length, min, IfOk, MatchOption};
ghost use Rattle.std.specs.Char.{is_digit};
ghost use Rattle.std.specs.Fmt.{digit_glyph};
ghost use Rattle.percent_encoding.specs.Percent.{KeepsFirst, percent_decode};
ghost use Rattle.px_bytes.specs.Gives.{Gives};
ghost use Rattle.px_bytes.specs.Limit.{limited};
ghost use Rattle.tcl_encodings.specs.Percent.{GivesOneByte, escape, escaped, is_unreserved};
ghost use Rattle.tcl_encodings.specs.Percent.{uri_decode_value, uri_encode_value};

use percent_encoding::percent_decode;
use px_bytes::{M, Raise, TEXT_LIMIT, Text};
use std::alloc::Global;

/// `URI::encode TEXT`: the text with each byte but letters, digits and `- . _ ~` escaped.
pub fn uri_encode(alloc: Global, arguments: &[Text]) -> Result<Text, Raise>
    ensures { Gives result (uri_encode_value arguments.now) }
{
    match arguments {
        [text] => encoded(alloc, text.as_bytes()),
        _ => Raise::arity(alloc, b"URI::encode"),
    }
}

fn encoded(alloc: Global, bytes: &[u8]) -> Result<Text, Raise>
    ensures { Gives result (limited (escaped bytes.now)) }
{
    let size = escaped_len(bytes);
    if size > TEXT_LIMIT {
        return Raise::too_long(alloc);
    }
    Ok(escape_all(alloc, bytes, size)?)
}

// How many bytes the text has with its escapes, or `usize::MAX` where they are more.
fn escaped_len(bytes: &[u8]) -> usize
    ensures { result ≡ min (length (escaped bytes.now)) usize.MAX }
{
    let mut size: usize = 0;
    for byte in bytes {
        size = size.saturating_add(if is_unreserved(*byte) { 1 } else { 3 });
    }
    size
}

// The text with its escapes, which has so many bytes.
fn escape_all(alloc: Global, bytes: &[u8], size: usize) -> M<Text>
    ensures { IfOk result (λ text. text ≡ escaped bytes.now) }
{
    let mut out = Vec::with_capacity(alloc, size)?;
    for byte in bytes {
        if is_unreserved(*byte) {
            out.push(*byte)?;
        } else {
            out.extend_from_slice(&escape(*byte))?;
        }
    }
    Ok(Text::from_vec(out))
}

fn is_unreserved(byte: u8) -> bool
    ensures { result ≡ is_unreserved byte }
{
    byte.is_ascii_alphanumeric() || matches!(byte, b'-' | b'.' | b'_' | b'~')
}

fn escape(byte: u8) -> [u8; 3]
    ensures { result ≡ escape byte }
{
    [b'%', hex_digit(byte / 16), hex_digit(byte % 16)]
}

fn hex_digit(value: u8) -> u8
    requires { value < 16 }
    ensures { result ≡ digit_glyph true value }
{
    if value < 10 {
        b'0' + value
    } else {
        b'A' + (value - 10)
    }
}

/// `URI::decode TEXT`: the text with each escape replaced by its byte. A `%` that isn't followed by
/// two hexadecimal digits stays.
pub fn uri_decode(alloc: Global, arguments: &[Text]) -> Result<Text, Raise>
    ensures { Gives result (uri_decode_value arguments.now) }
{
    match arguments {
        [text] => decoded(alloc, text.as_bytes()),
        _ => Raise::arity(alloc, b"URI::decode"),
    }
}

fn decoded(alloc: Global, text: &[u8]) -> Result<Text, Raise>
    ensures { Gives result (limited (percent_decode text.now)) }
{
    let size = decoded_len(text);
    if size > TEXT_LIMIT {
        return Raise::too_long(alloc);
    }
    let mut out = Vec::with_capacity(alloc, size)?;
    percent_decode(text).append_to(&mut out)?;
    Ok(Text::from_vec(out))
}

fn decoded_len(text: &[u8]) -> usize
    ensures { result ≡ length (percent_decode text.now) }
{
    let mut size = 0;
    let mut rest = text;
    while let Some(behind) = behind_first(rest) {
        rest = behind;
        size += 1;
    }
    size
}

// What stands behind the escape or the byte that a text begins with.
fn behind_first(text: &[u8]) -> Option<&[u8]>
    ensures { MatchOption result (text.now ≡ []) (λ behind. GivesOneByte text.now behind.now) }
{
    if let Some(behind) = behind_escape(text) {
        return Some(behind);
    }
    let [_, behind @ ..] = text else {
        return None;
    };
    Some(behind)
}

// What stands behind the escape that a text begins with.
fn behind_escape(text: &[u8]) -> Option<&[u8]>
    ensures { MatchOption result (KeepsFirst text.now)
        (λ behind. GivesOneByte text.now behind.now) }
{
    let [b'%', high, low, behind @ ..] = text else {
        return None;
    };
    if is_hexadecimal(*high) && is_hexadecimal(*low) {
        return Some(behind);
    }
    None
}

fn is_hexadecimal(byte: u8) -> bool
    ensures { result ≡ is_digit byte 16 }
{
    char::from(byte).is_digit(16)
}
