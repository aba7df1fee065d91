// What a `%` of a format asks for.

ghost use Rattle.std.specs.Prelude.{◌≡◌, ◌≤◌, length};
ghost use Rattle.std.specs.List.{prefix_len};
ghost use Rattle.tcl_strings.specs.Conversion.{asks, is_digit_byte, is_flag, item_by, item_len};
ghost use Rattle.tcl_strings.specs.Conversion.{item_of, letter_of, width_of};

use px_bytes::read_whole;

/// What a value is written as.
#[derive(Clone, Copy)]
pub(crate) enum Letter {
    Text,
    Decimal,
    LowerHex,
    UpperHex,
    Octal,
    Byte,
}

/// A conversion: what a value is written as, in how many bytes at least, whether it stands at the
/// left of them, and whether zeros stand before a number.
#[derive(Clone, Copy)]
pub(crate) struct Conversion {
    pub letter: Letter,
    pub left: bool,
    pub zeros: bool,
    pub width: usize,
}

/// What stands behind a `%`: another `%`, a conversion, one of a width that there is not, or none of
/// these.
#[derive(Clone, Copy)]
pub(crate) enum Item {
    Percent,
    Asks(Conversion),
    TooWide,
    Unknown,
}

/// What a format asks for behind a `%`.
pub(crate) fn item_of(text: &[u8]) -> Item
    ensures { result ≡ item_of text.now }
{
    let (flags, behind) = text.split_at(flags_len(text));
    let (digits, behind) = behind.split_at(digits_len(behind));
    item_by(flags, width_of(digits), behind)
}

fn item_by(flags: &[u8], width: Option<usize>, behind: &[u8]) -> Item
    ensures { result ≡ item_by flags.now width behind.now }
{
    match behind {
        [byte, ..] => asks(flags, letter_of(*byte), width, *byte),
        [] => Item::Unknown,
    }
}

fn asks(flags: &[u8], letter: Option<Letter>, width: Option<usize>, byte: u8) -> Item
    ensures { result ≡ asks flags.now letter width byte }
{
    match (letter, width) {
        (Some(letter), Some(width)) => Item::Asks(Conversion {
            letter,
            left: flags.contains(&b'-'),
            zeros: flags.contains(&b'0'),
            width,
        }),
        (Some(_), None) => Item::TooWide,
        (None, Some(_)) if byte == b'%' => Item::Percent,
        (None, _) => Item::Unknown,
    }
}

/// How many bytes that takes, where the text doesn't end before.
pub(crate) fn item_len(text: &[u8]) -> usize
    ensures { result ≡ item_len text.now }
{
    let flags = flags_len(text);
    flags + digits_len(&text[flags..]) + 1
}

fn flags_len(text: &[u8]) -> usize
    ensures value { result ≡ prefix_len is_flag text.now }
    ensures within { result ≤ length text.now }
{
    for (at, byte) in text.iter().enumerate() {
        if !matches!(byte, b'-' | b'0') {
            return at;
        }
    }
    text.len()
}

fn digits_len(text: &[u8]) -> usize
    ensures value { result ≡ prefix_len is_digit_byte text.now }
    ensures within { result ≤ length text.now }
{
    for (at, byte) in text.iter().enumerate() {
        if !byte.is_ascii_digit() {
            return at;
        }
    }
    text.len()
}

// A width of at most 1,000; none is 0.
fn width_of(digits: &[u8]) -> Option<usize>
    ensures { result ≡ width_of digits.now }
{
    if digits.is_empty() {
        return Some(0);
    }
    match usize::try_from(read_whole(digits)?) {
        Ok(width) if width <= 1000 => Some(width),
        _ => None,
    }
}

fn letter_of(byte: u8) -> Option<Letter>
    ensures { result ≡ letter_of byte }
{
    match byte {
        b's' => Some(Letter::Text),
        b'd' => Some(Letter::Decimal),
        b'x' => Some(Letter::LowerHex),
        b'X' => Some(Letter::UpperHex),
        b'o' => Some(Letter::Octal),
        b'c' => Some(Letter::Byte),
        _ => None,
    }
}
