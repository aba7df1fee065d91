// What stands at the keys of a table.

ghost use Rattle.std.specs.Prelude.{◌≡◌, IfOk, option_map, option_and_then};
ghost use Rattle.std.specs.Option.{option_copied};
ghost use Rattle.toml.specs.Data.{as_array, as_integer, get_member};
ghost use Rattle.toml.specs.View.{array_view, table_view, view};
ghost use Rattle.config.specs.Texts.{text_at};
ghost use Rattle.pool_monitor.specs.Keys.{key_view};
ghost use Rattle.pool_monitor.specs.Made.{given, whole_at};

use crate::key::{Key, Kind};
use crate::value::in_range;
use px_bytes::{M, Text};
use std::alloc::Global;
use toml::value::Array;
use toml::{Table, Value};

/// The value at a key.
pub(crate) fn value_at<'a>(table: &'a Table, key: &str) -> Option<&'a Value>
    ensures { option_map (λ v. view v.now) result ≡ get_member key.now (table_view table.now) }
{
    table.get(key)
}

/// The text at a key.
pub(crate) fn text_at<'a>(table: &'a Table, key: &str) -> Option<&'a str>
    ensures { option_copied result ≡ text_at key.now (table_view table.now) }
{
    match value_at(table, key) {
        Some(value) => value.as_str(),
        None => None,
    }
}

/// The array at a key.
pub(crate) fn array_at<'a>(table: &'a Table, key: &str) -> Option<&'a Array>
    ensures { option_map (λ v. array_view v.now) result
        ≡ option_and_then as_array (get_member key.now (table_view table.now)) }
{
    match value_at(table, key) {
        Some(value) => value.as_array(),
        None => None,
    }
}

fn integer_at(key: &Key, table: &Table) -> Option<i64>
    ensures { result ≡ option_and_then as_integer
        (get_member (key_view key.now).name (table_view table.now)) }
{
    match value_at(table, key.name) {
        Some(value) => value.as_integer(),
        None => None,
    }
}

/// The whole number at a key, or the usual one.
pub(crate) fn whole_at(key: &Key, table: &Table) -> u32
    ensures { result ≡ whole_at (key_view key.now) (table_view table.now) }
{
    let number = integer_at(key, table);
    match key.kind {
        Kind::Whole { low, high, usual } => match number {
            Some(number) => in_range(low, high, number).unwrap_or(usual),
            None => usual,
        },
        _ => 0,
    }
}

/// The text at a key that is required.
pub(crate) fn given(alloc: Global, key: &Key, table: &Table) -> M<Text>
    ensures { IfOk result (λ text. text ≡ given (key_view key.now) (table_view table.now)) }
{
    match text_at(table, key.name) {
        Some(text) => Text::new(alloc, text.as_bytes()),
        None => Ok(Text::empty(alloc)),
    }
}
