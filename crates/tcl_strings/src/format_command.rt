// The command `format`.

ghost use Rattle.std.specs.Prelude.{◌≡◌, ◌++◌, ◌<◌, ◌^◌, IfOk, OnOk, length};
ghost use Rattle.std.specs.List.{flat_map};
ghost use Rattle.px_bytes.specs.Gives.{Gives};
ghost use Rattle.tcl_strings.specs.Field.{field_of, fields_left};
ghost use Rattle.tcl_strings.specs.FieldText.{field_text};
ghost use Rattle.tcl_strings.specs.FormatCommand.{fields_value, format_value};
ghost use Rattle.px_bytes.specs.Limit.{is_short, limited};

use crate::field::{Field, Rest, next_field};
use crate::field_text::value_text;
use crate::flaw::{Flaw, any_flaw, first_bad};
use px_bytes::{M, Raise, TEXT_LIMIT, TclFault, Text};
use std::alloc::Global;

/// The value of `format FORMAT` with its values, or its fault.
pub fn format(alloc: Global, arguments: &[Text]) -> Result<Text, Raise>
    ensures { Gives result (format_value arguments.now) }
{
    let [format, values @ ..] = arguments else {
        return Raise::arity(alloc, b"format");
    };
    formatted(
        alloc,
        Rest {
            format: format.as_bytes(),
            values,
        },
    )
}

fn formatted(alloc: Global, rest: Rest<'_>) -> Result<Text, Raise>
    ensures { Gives result (fields_value (fields_left rest.entry)) }
{
    if any_flaw(Flaw::Missing, rest) {
        return Raise::arity(alloc, b"format");
    }
    if any_flaw(Flaw::Unknown, rest) {
        return Raise::syntax(alloc, b"format");
    }
    if let Some(word) = first_bad(rest) {
        return Err(Raise::Fault(TclFault::not_whole(alloc, word)?));
    }
    if any_flaw(Flaw::OutOfRange, rest) {
        return Err(Raise::Fault(TclFault::out_of_range(alloc)?));
    }
    written_within(alloc, rest)
}

fn written_within(alloc: Global, rest: Rest<'_>) -> Result<Text, Raise>
    ensures { Gives result (limited (flat_map field_text (fields_left rest.entry))) }
{
    if !fits(alloc, rest)? {
        return Raise::too_long(alloc);
    }
    Ok(written(alloc, rest)?)
}

fn fits(alloc: Global, rest: Rest<'_>) -> M<bool>
    ensures { IfOk result (λ b. b ≡ is_short (flat_map field_text (fields_left rest.entry))) }
{
    let mut size = 0usize;
    let mut left = rest;
    while let Some(next) = next_field(left) {
        size += field_len(alloc, next.field)?;
        if size > TEXT_LIMIT {
            return Ok(false);
        }
        left = next.rest;
    }
    Ok(true)
}

fn written(alloc: Global, rest: Rest<'_>) -> M<Text>
    ensures { IfOk result (λ t. t ≡ flat_map field_text (fields_left rest.entry)) }
{
    let mut out = Text::empty(alloc);
    let mut left = rest;
    while let Some(next) = next_field(left) {
        push_field(alloc, &mut out, next.field)?;
        left = next.rest;
    }
    Ok(out)
}

fn field_len(alloc: Global, field: Field<'_>) -> M<usize>
    ensures value { IfOk result (λ n. n ≡ length (field_text (field_of field.entry))) }
    ensures small { IfOk result (λ n. n < 2 ^ 63) }
{
    match field {
        Field::Byte(_) => Ok(1),
        Field::Value(conversion, value) => {
            let text = value_text(alloc, conversion, value)?;
            Ok(text.as_bytes().len())
        }
        Field::Missing | Field::Unknown => Ok(0),
    }
}

fn push_field(alloc: Global, out: &mut Text, field: Field<'_>) -> M<()>
    ensures { OnOk result (out.new ≡ out.old ++ field_text (field_of field.entry)) }
{
    match field {
        Field::Byte(byte) => out.push(&[byte]),
        Field::Value(conversion, value) => {
            let text = value_text(alloc, conversion, value)?;
            out.push(text.as_bytes())
        }
        Field::Missing | Field::Unknown => Ok(()),
    }
}
