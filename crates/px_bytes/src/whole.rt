// Whole numbers of 64 bits.

ghost use Rattle.std.specs.Prelude.{◌≡◌, ◌≤◌, ◌^◌, length, IfOk, IfSome, Some};
ghost use Rattle.std.specs.Fmt.{signed_decimal};
ghost use Rattle.std.specs.Str.Parse.{starts_with_minus, without_leading_sign};
ghost use Rattle.px_bytes.specs.Whole.{digits_behind, digits, fits_64, magnitude, signed, whole};

use crate::{M, Text, trimmed};
use itoa::Buffer;
use std::alloc::Global;

/// The whole number that a text spells, from -2^63 to 2^63 - 1: decimal, octal behind `0`, or
/// hexadecimal behind `0x`, with an optional sign, and with or without white space around it. It
/// takes no memory.
pub fn read_whole(text: &[u8]) -> Option<i64>
    ensures { result ≡ whole text.now }
{
    match read_short(text) {
        Some(value) => Some(value),
        None => read_signed(text),
    }
}

// A number of at most 18 decimal digits and nothing else, which no 0 begins but that of 0 itself:
// most numbers are written so.
fn read_short(text: &[u8]) -> Option<i64>
    ensures { IfSome result (λ value. whole text.now ≡ Some value) }
{
    let [first, behind @ ..] = text else {
        return None;
    };
    if behind.len() > 17 || (*first == b'0' && !behind.is_empty()) {
        return None;
    }
    with_sign(false, read_short_digits(text)?)
}

fn read_short_digits(text: &[u8]) -> Option<u64>
    requires short { length text.now ≤ 18 }
    ensures { IfSome result (λ value. digits_behind 10 0 text.now ≡ Some value) }
{
    let mut value: u64 = 0;
    for byte in text {
        if !byte.is_ascii_digit() {
            return None;
        }
        value = value * 10 + u64::from(*byte - b'0');
    }
    Some(value)
}

fn read_signed(text: &[u8]) -> Option<i64>
    ensures { result ≡ whole text.now }
{
    let (minus, number) = split_sign(trimmed(text));
    with_sign(minus, read_magnitude(number)?)
}

/// The number in decimal, with `-` before a negative one.
pub fn print_whole(alloc: Global, value: i64) -> M<Text>
    ensures decimal { IfOk result (λ text. text ≡ signed_decimal value) }
    ensures reads_back { IfOk result (λ text. whole text ≡ Some value) }
{
    let mut digits = Buffer::new();
    Text::new(alloc, digits.format(value).as_bytes())
}

// Whether the text begins with `-`, and the text without `-` or `+` before it.
fn split_sign(text: &[u8]) -> (bool, &[u8])
    ensures minus { result.0 ≡ starts_with_minus text.now }
    ensures number { result.1.now ≡ without_leading_sign text.now }
{
    match text {
        [b'-', number @ ..] => (true, number),
        [b'+', number @ ..] => (false, number),
        _ => (false, text),
    }
}

fn with_sign(minus: bool, size: u64) -> Option<i64>
    ensures { result ≡ signed minus (Some size) }
{
    if minus {
        0i64.checked_sub_unsigned(size)
    } else {
        i64::try_from(size).ok()
    }
}

// A number without sign, where it is below 2^64.
fn read_magnitude(text: &[u8]) -> Option<u64>
    ensures { result ≡ fits_64 (magnitude text.now) }
{
    match text {
        [b'0', b'x', digits @ ..] => read_digits(16, digits),
        [b'0', digits @ ..] if !digits.is_empty() => read_digits(8, digits),
        digits => read_digits(10, digits),
    }
}

fn read_digits(radix: u32, text: &[u8]) -> Option<u64>
    requires least { 2 ≤ radix }
    requires most { radix ≤ 16 }
    ensures { result ≡ fits_64 (digits radix text.now) }
{
    if text.is_empty() {
        return None;
    }
    let mut value: u64 = 0;
    for byte in text {
        let digit = char::from(*byte).to_digit(radix)?;
        value = value
            .checked_mul(u64::from(radix))?
            .checked_add(u64::from(digit))?;
    }
    Some(value)
}
