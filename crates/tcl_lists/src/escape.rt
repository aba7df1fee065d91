// Backslashes and what they stand for.

ghost use Rattle.std.specs.Prelude.{◌≡◌, ◌<◌, ◌≤◌, ◌^◌, length, take, IfOk};
ghost use Rattle.std.specs.Char.{digit_value};
ghost use Rattle.std.specs.List.{prefix_len};
ghost use Rattle.tcl_lists.specs.Escape.{digits, digits_byte, escape, is_blank, letter_byte};
ghost use Rattle.tcl_lists.specs.Escape.{numbered, octal};

/// The byte that a backslash stands for, and how many bytes behind it it takes.
#[derive(Clone, Copy)]
pub(crate) struct Escape {
    pub byte: u8,
    pub taken: usize,
}

/// What a backslash stands for, by the bytes behind it.
pub(crate) fn read_escape(behind: &[u8]) -> Escape
    ensures value { result ≡ escape behind.now }
    ensures within { result.taken ≤ length behind.now }
{
    let [first, rest @ ..] = behind else {
        return Escape {
            byte: b'\\',
            taken: 0,
        };
    };
    match *first {
        b'0'..=b'7' => octal(digits(8, front(behind, 3))),
        b'x' => numbered(b'x', digits(16, rest)),
        b'u' => numbered(b'u', digits(16, front(rest, 4))),
        b'\n' => Escape {
            byte: b' ',
            taken: blank_len(rest) + 1,
        },
        letter => Escape {
            byte: letter_byte(letter),
            taken: 1,
        },
    }
}

fn octal(text: &[u8]) -> Escape
    ensures { result ≡ octal text.now }
{
    Escape {
        byte: digits_byte(8, text),
        taken: text.len(),
    }
}

// A letter, and the digits behind it.
fn numbered(letter: u8, text: &[u8]) -> Escape
    requires { length text.now < 2 ^ 63 }
    ensures { result ≡ numbered letter text.now }
{
    if text.is_empty() {
        return Escape {
            byte: letter,
            taken: 1,
        };
    }
    Escape {
        byte: digits_byte(16, text),
        taken: text.len() + 1,
    }
}

// At most so many bytes.
fn front(text: &[u8], most: usize) -> &[u8]
    ensures { result.now ≡ take most text.now }
{
    &text[..text.len().min(most)]
}

// The digits at the front.
fn digits(radix: u32, text: &[u8]) -> &[u8]
    requires least { 2 ≤ radix }
    requires most { radix ≤ 36 }
    ensures { result.now ≡ digits radix text.now }
{
    for (at, byte) in text.iter().enumerate() {
        if !char::from(*byte).is_digit(radix) {
            return &text[..at];
        }
    }
    text
}

// The number that digits write, modulo 256.
fn digits_byte(radix: u8, text: &[u8]) -> u8
    ensures { result ≡ digits_byte radix text.now }
{
    let mut value = 0u8;
    for byte in text {
        value = value.wrapping_mul(radix).wrapping_add(digit_value(*byte));
    }
    value
}

// A digit of any radix; 36 for another byte.
fn digit_value(byte: u8) -> u8
    ensures { result ≡ digit_value byte }
{
    match char::from(byte).to_digit(36) {
        Some(digit) => digit as u8,
        None => 36,
    }
}

fn blank_len(text: &[u8]) -> usize
    ensures value { result ≡ prefix_len is_blank text.now }
    ensures within { result ≤ length text.now }
{
    for (at, byte) in text.iter().enumerate() {
        if !matches!(byte, b' ' | b'\t') {
            return at;
        }
    }
    text.len()
}

fn letter_byte(letter: u8) -> u8
    ensures { result ≡ letter_byte letter }
{
    match letter {
        b'a' => 7,
        b'b' => 8,
        b'f' => 12,
        b'n' => b'\n',
        b'r' => b'\r',
        b't' => b'\t',
        b'v' => 11,
        other => other,
    }
}
