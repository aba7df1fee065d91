// How a format writes a value.

ghost use Rattle.std.specs.Prelude.{◌≡◌, ◌≤◌, ◌++◌, IfOk, OnOk, replicate};
ghost use Rattle.tcl_strings.specs.FieldText.{byte_of, digits_of, in_width, number_in_width};
ghost use Rattle.tcl_strings.specs.FieldText.{number_of, number_text, value_text};

use crate::conversion::{Conversion, Letter};
use px_bytes::{M, Text, read_whole};
use std::alloc::Global;

/// The text of a value.
pub(crate) fn value_text(alloc: Global, conversion: Conversion, value: &[u8]) -> M<Text>
    ensures { IfOk result (λ t. t ≡ value_text conversion value.now) }
{
    match conversion.letter {
        Letter::Text => in_width(alloc, conversion, value),
        Letter::Byte => in_width(alloc, conversion, &[byte_of(number_of(value))]),
        letter => number_text(alloc, conversion, letter, number_of(value)),
    }
}

/// The whole number that a text is; 0 where it isn't one.
pub(crate) fn number_of(value: &[u8]) -> i64
    ensures { result ≡ number_of value.now }
{
    read_whole(value).unwrap_or(0)
}

fn byte_of(number: i64) -> u8
    ensures { result ≡ byte_of number }
{
    u8::try_from(number).unwrap_or(0)
}

fn number_text(alloc: Global, conversion: Conversion, letter: Letter, number: i64) -> M<Text>
    ensures { IfOk result (λ t. t ≡ number_text conversion letter number) }
{
    let digits = digits_of(alloc, letter, number.unsigned_abs())?;
    let sign: &[u8] = if number < 0 { b"-" } else { b"" };
    number_in_width(alloc, conversion, sign, digits.as_bytes())
}

fn digits_of(alloc: Global, letter: Letter, magnitude: u64) -> M<Text>
    ensures { IfOk result (λ t. t ≡ digits_of letter magnitude) }
{
    let digits = match letter {
        Letter::LowerHex => format!(in alloc; "{magnitude:x}")?,
        Letter::UpperHex => format!(in alloc; "{magnitude:X}")?,
        Letter::Octal => format!(in alloc; "{magnitude:o}")?,
        _ => format!(in alloc; "{magnitude}")?,
    };
    Ok(Text::from_vec(digits.into_bytes()))
}

// A number, with zeros behind its sign where these are asked for and it doesn't stand at the left.
fn number_in_width(alloc: Global, conversion: Conversion, sign: &[u8], digits: &[u8]) -> M<Text>
    ensures { IfOk result (λ t. t ≡ number_in_width conversion sign.now digits.now) }
{
    let mut text = Text::new(alloc, sign)?;
    if conversion.zeros && !conversion.left {
        let used = sign.len() + digits.len();
        push_times(&mut text, b'0', conversion.width.saturating_sub(used))?;
    }
    text.push(digits)?;
    in_width(alloc, conversion, text.as_bytes())
}

// A text with the blanks that it takes to fill the width.
fn in_width(alloc: Global, conversion: Conversion, text: &[u8]) -> M<Text>
    ensures { IfOk result (λ t. t ≡ in_width conversion text.now) }
{
    let blanks = conversion.width.saturating_sub(text.len());
    let mut out = Text::empty(alloc);
    if !conversion.left {
        push_times(&mut out, b' ', blanks)?;
    }
    out.push(text)?;
    if conversion.left {
        push_times(&mut out, b' ', blanks)?;
    }
    Ok(out)
}

fn push_times(out: &mut Text, byte: u8, count: usize) -> M<()>
    ensures { OnOk result (out.new ≡ out.old ++ replicate count byte) }
{
    for _ in 0..count {
        out.push(&[byte])?;
    }
    Ok(())
}
