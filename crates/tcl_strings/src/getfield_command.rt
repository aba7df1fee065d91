// The command `getfield`.

ghost use Rattle.std.specs.Prelude.{◌≡◌, get_or, []};
ghost use Rattle.px_bytes.specs.Gives.{Gives};
ghost use Rattle.tcl_strings.specs.Fields.{IsCut, fields, field_value, getfield_value};
ghost use Rattle.tcl_strings.specs.Fields.{numbered_field};

use crate::search::first_place;
use px_bytes::{Raise, Text, number};
use std::alloc::Global;

/// The value of `getfield TEXT SEPARATOR N`, or its fault: the N-th of the fields between which the
/// separator stands, counted from 1, and nothing where there is none.
pub fn getfield(alloc: Global, arguments: &[Text]) -> Result<Text, Raise>
    ensures { Gives result (getfield_value arguments.now) }
{
    match arguments {
        [text, separator, place] => field_text(
            alloc,
            text.as_bytes(),
            separator.as_bytes(),
            place.as_bytes(),
        ),
        _ => Raise::arity(alloc, b"getfield"),
    }
}

fn field_text(alloc: Global, text: &[u8], separator: &[u8], place: &[u8]) -> Result<Text, Raise>
    ensures { Gives result (field_value text.now separator.now place.now) }
{
    let place = number(alloc, place)?;
    Ok(Text::new(alloc, numbered_field(text, separator, place))?)
}

fn numbered_field<'a>(text: &'a [u8], separator: &[u8], place: i64) -> &'a [u8]
    ensures { result.now ≡ numbered_field place (fields separator.now text.now) }
{
    match usize::try_from(place) {
        Ok(place) if place > 0 => field(text, separator, place - 1),
        _ => &[],
    }
}

// The field with so many before it.
fn field<'a>(text: &'a [u8], separator: &[u8], before: usize) -> &'a [u8]
    ensures { result.now ≡ get_or (fields separator.now text.now) before [] }
{
    let mut rest = text;
    let mut left = before;
    while left > 0 {
        let Some((_, behind)) = cut(rest, separator) else {
            return &[];
        };
        rest = behind;
        left -= 1;
    }
    match cut(rest, separator) {
        Some((field, _)) => field,
        None => rest,
    }
}

// The first field and what the others stand in; none where there is one alone.
fn cut<'a>(text: &'a [u8], separator: &[u8]) -> Option<(&'a [u8], &'a [u8])>
    ensures { IsCut separator.now text.now result }
{
    let Some(place) = first_place(separator, text) else {
        return None;
    };
    let (field, _) = text.split_at(place);
    let (_, behind) = text.split_at(place + separator.len());
    Some((field, behind))
}
