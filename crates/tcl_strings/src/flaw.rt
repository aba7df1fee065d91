// What is wrong with a format and its values.

ghost use Rattle.std.specs.Prelude.{◌≡◌, option_map};
ghost use Rattle.std.specs.List.{list_any};
ghost use Rattle.tcl_strings.specs.Field.{field_of, fields_left};
ghost use Rattle.tcl_strings.specs.FormatCommand.{bad_by, bad_value, can_write, first_bad};
ghost use Rattle.tcl_strings.specs.FormatCommand.{has_flaw};

use crate::conversion::Letter;
use crate::field::{Field, Rest, next_field};
use crate::field_text::number_of;
use px_bytes::read_whole;

/// What can be wrong with a piece: its value is missing, it is no conversion that there is, or its
/// number is out of range.
#[derive(Clone, Copy)]
pub(crate) enum Flaw {
    Missing,
    Unknown,
    OutOfRange,
}

/// Whether a piece has the flaw.
pub(crate) fn any_flaw(flaw: Flaw, rest: Rest<'_>) -> bool
    ensures { result ≡ list_any (has_flaw flaw) (fields_left rest.entry) }
{
    let mut left = rest;
    while let Some(next) = next_field(left) {
        if has_flaw(flaw, next.field) {
            return true;
        }
        left = next.rest;
    }
    false
}

fn has_flaw(flaw: Flaw, field: Field<'_>) -> bool
    ensures { result ≡ has_flaw flaw (field_of field.entry) }
{
    match (flaw, field) {
        (Flaw::Missing, Field::Missing) => true,
        (Flaw::Unknown, Field::Unknown) => true,
        (Flaw::OutOfRange, Field::Value(conversion, value)) => {
            !can_write(conversion.letter, number_of(value))
        }
        _ => false,
    }
}

fn can_write(letter: Letter, number: i64) -> bool
    ensures { result ≡ can_write letter number }
{
    match letter {
        Letter::Text | Letter::Decimal => true,
        Letter::LowerHex | Letter::UpperHex | Letter::Octal => number >= 0,
        Letter::Byte => number >= 0 && number <= 255,
    }
}

/// The first value that has to be a whole number and isn't one.
pub(crate) fn first_bad(rest: Rest<'_>) -> Option<&[u8]>
    ensures { option_map (λ w. w.now) result ≡ first_bad (fields_left rest.entry) }
{
    let mut left = rest;
    while let Some(next) = next_field(left) {
        if let Some(word) = bad_value(next.field) {
            return Some(word);
        }
        left = next.rest;
    }
    None
}

fn bad_value(field: Field<'_>) -> Option<&[u8]>
    ensures { option_map (λ w. w.now) result ≡ bad_value (field_of field.entry) }
{
    match field {
        Field::Value(conversion, value) => bad_by(conversion.letter, value),
        _ => None,
    }
}

fn bad_by(letter: Letter, value: &[u8]) -> Option<&[u8]>
    ensures { option_map (λ w. w.now) result ≡ bad_by letter value.now }
{
    if matches!(letter, Letter::Text) {
        return None;
    }
    match read_whole(value) {
        Some(_) => None,
        None => Some(value),
    }
}
