// Backslash substitution.

ghost use Rattle.std.specs.Prelude.{◌≡◌, ◌≤◌, ◌<◌, ◌+◌, length};
ghost use Rattle.tcl_words.specs.Escapes.{digit, is_digit, digits, with_digit, letter};
ghost use Rattle.tcl_words.specs.Escapes.{after_backslash, escape, unit};

use crate::places::stands;
use crate::skips::spaces_end;

/// The value of a hexadecimal digit, and 16 for every other byte.
#[tactic(auto, unfolding(crate::specs::Escapes::digit))]
fn digit(byte: u8) -> u16
    ensures value { result ≡ digit byte }
    ensures small { result ≤ 16 }
{
    if byte >= b'0' && byte <= b'9' {
        u16::from(byte - b'0')
    } else if byte >= b'a' && byte <= b'f' {
        u16::from(byte - b'a' + 10)
    } else if byte >= b'A' && byte <= b'F' {
        u16::from(byte - b'A' + 10)
    } else {
        16
    }
}

/// Whether a digit of the base stands at the place.
#[tactic(auto, unfolding(crate::specs::Escapes::is_digit))]
fn is_digit(text: &[u8], base: u16, at: usize) -> bool
    ensures { result ≡ is_digit base text.now at }
{
    at < text.len() && digit(text[at]) < base
}

/// The number with one more digit, of which the low 16 bits are kept.
#[tactic(auto, unfolding(crate::specs::Escapes::with_digit))]
fn with_digit(base: u16, number: u16, byte: u8) -> u16
    requires { base ≤ 16 }
    ensures { result ≡ with_digit base number byte }
{
    let more = u32::from(number) * u32::from(base) + u32::from(digit(byte));
    (more % 65536) as u16
}

/// The number that digits from the place on spell, as many as there are up to the limit, and the
/// place after them.
fn digits(text: &[u8], base: u16, limit: usize, start: usize) -> (u16, usize)
    requires start { start ≤ length text.now }
    requires base { base ≤ 16 }
    ensures value { result ≡ digits base text.now limit start 0 }
    ensures within { result.1 ≤ length text.now }
    ensures onward { start ≤ result.1 }
{
    let mut number = 0;
    let mut at = start;
    let mut left = limit;
    while left > 0 && is_digit(text, base, at) {
        number = with_digit(base, number, text[at]);
        at += 1;
        left -= 1;
    }
    (number, at)
}

/// What a backslash before the byte stands for.
#[tactic(auto, unfolding(crate::specs::Escapes::letter))]
fn letter(byte: u8) -> u8
    ensures { result ≡ letter byte }
{
    match byte {
        b'a' => 7,
        b'b' => 8,
        b'f' => 12,
        b'n' => 10,
        b'r' => 13,
        b't' => 9,
        b'v' => 11,
        _ => byte,
    }
}

/// What stands after a backslash, and the place after it.
#[tactic(auto, unfolding(crate::specs::Escapes::after_backslash, crate::specs::Places::stands))]
fn after_backslash(text: &[u8], at: usize) -> (u16, usize)
    requires { at ≤ length text.now }
    ensures value { result ≡ after_backslash text.now at }
    ensures within { result.1 ≤ length text.now }
    ensures onward { at ≤ result.1 }
{
    if is_digit(text, 8, at) {
        return digits(text, 8, 3, at);
    }
    if stands(text, at, b'x') && is_digit(text, 16, at + 1) {
        let (number, end) = digits(text, 16, text.len(), at + 1);
        return (number % 256, end);
    }
    if stands(text, at, b'u') && is_digit(text, 16, at + 1) {
        return digits(text, 16, 4, at + 1);
    }
    if at < text.len() {
        (u16::from(letter(text[at])), at + 1)
    } else {
        (u16::from(b'\\'), at)
    }
}

/// The number of the character that the escape at the place stands for, and the place after it.
#[tactic(auto, unfolding(crate::specs::Escapes::escape, crate::specs::Places::stands))]
pub fn escape(text: &[u8], at: usize) -> (u16, usize)
    requires { at < length text.now }
    ensures value { result ≡ escape text.now at }
    ensures within { result.1 ≤ length text.now }
    ensures onward { at < result.1 }
{
    if stands(text, at + 1, b'\n') {
        (u16::from(b' '), spaces_end(text, at + 2))
    } else {
        after_backslash(text, at + 1)
    }
}

/// The number of the character at the place, which may be written by an escape, and the place
/// after it.
#[tactic(auto, unfolding(crate::specs::Escapes::unit))]
pub fn unit(text: &[u8], at: usize) -> (u16, usize)
    requires { at < length text.now }
    ensures value { result ≡ unit text.now at }
    ensures within { result.1 ≤ length text.now }
    ensures onward { at < result.1 }
{
    if stands(text, at, b'\\') {
        escape(text, at)
    } else {
        (u16::from(text[at]), at + 1)
    }
}
