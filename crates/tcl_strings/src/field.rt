// What a format writes, one piece after another.

ghost use Rattle.std.specs.Prelude.{◌≡◌, ◌<◌, IfSome};
ghost use Rattle.tcl_strings.specs.Field.{IsAsked, IsNext, IsWith, left_of};
ghost use Rattle.tcl_strings.specs.declared.conversion.Item.TheVariants.{TooWide};

use crate::conversion::{Conversion, Item, item_len, item_of};
use px_bytes::Text;

/// A piece of a format: a byte that stands for itself, a conversion with its value or without one,
/// or a conversion that there is not.
#[derive(Clone, Copy)]
pub(crate) enum Field<'a> {
    Byte(u8),
    Value(Conversion, &'a [u8]),
    Missing,
    Unknown,
}

/// What is left of a format, and of the values for it.
#[derive(Clone, Copy)]
pub(crate) struct Rest<'a> {
    pub format: &'a [u8],
    pub values: &'a [Text],
}

/// The next piece, and what is left behind it.
#[derive(Clone, Copy)]
pub(crate) struct Next<'a> {
    pub field: Field<'a>,
    pub rest: Rest<'a>,
}

/// The next piece of a format; none at its end.
pub(crate) fn next_field(rest: Rest<'_>) -> Option<Next<'_>>
    ensures next { IsNext rest.entry result }
    ensures shorter { IfSome result (λ next. left_of next.rest < left_of rest.entry) }
{
    let [first, behind @ ..] = rest.format else {
        return None;
    };
    if *first != b'%' {
        return Some(Next {
            field: Field::Byte(*first),
            rest: Rest {
                format: behind,
                values: rest.values,
            },
        });
    }
    let (_, format) = behind.split_at(item_len(behind).min(behind.len()));
    Some(with_value(item_of(behind), format, rest.values))
}

// What is asked for with the value for it, and what is left.
fn with_value<'a>(item: Item, format: &'a [u8], values: &'a [Text]) -> Next<'a>
    ensures with { IsWith item format.now values.now result }
    ensures same { result.rest.format.now ≡ format.now }
{
    let rest = Rest { format, values };
    match item {
        Item::Percent => Next {
            field: Field::Byte(b'%'),
            rest,
        },
        Item::Asks(conversion) => asked(conversion, rest),
        Item::TooWide => too_wide(rest),
        Item::Unknown => Next {
            field: Field::Unknown,
            rest,
        },
    }
}

fn asked(conversion: Conversion, rest: Rest<'_>) -> Next<'_>
    ensures with { IsAsked conversion rest.entry result }
    ensures same { result.rest.format.now ≡ rest.entry.format.now }
{
    let [value, values @ ..] = rest.values else {
        return Next {
            field: Field::Missing,
            rest,
        };
    };
    Next {
        field: Field::Value(conversion, value.as_bytes()),
        rest: Rest {
            format: rest.format,
            values,
        },
    }
}

// A conversion that there is not, which takes a value all the same.
fn too_wide(rest: Rest<'_>) -> Next<'_>
    ensures with { IsWith TooWide rest.entry.format.now rest.entry.values.now result }
    ensures same { result.rest.format.now ≡ rest.entry.format.now }
{
    let [_, values @ ..] = rest.values else {
        return Next {
            field: Field::Missing,
            rest,
        };
    };
    Next {
        field: Field::Unknown,
        rest: Rest {
            format: rest.format,
            values,
        },
    }
}
