// What stands at a key, or what is meant where nothing does.

ghost use Rattle.std.specs.Prelude.{◌≡◌, IfOk, option_and_then};
ghost use Rattle.toml.specs.Data.{as_integer, get_member};
ghost use Rattle.toml.specs.View.{array_view, table_view};
ghost use Rattle.config.specs.Keys.{key_view};
ghost use Rattle.config.specs.Read.{member_count, tables_in};
ghost use Rattle.config.specs.Settings.{addr_at, given, whole_at};

use crate::key::{Key, Kind};
use crate::keys::MEMBERS;
use crate::table::{array_at, text_at, value_at};
use crate::value::in_range;
use px_bytes::{Addr, M, Text};
use std::alloc::Global;
use tcl_encodings::addr_of;
use toml::Table;
use toml::value::Array;

/// The integer at a key.
pub(crate) fn integer_at(key: &Key, table: &Table) -> Option<i64>
    ensures { result ≡ option_and_then as_integer
        (get_member (key_view key.now).name (table_view table.now)) }
{
    match value_at(table, key.name) {
        Some(value) => value.as_integer(),
        None => None,
    }
}

/// The whole number at a key, or the usual one.
pub(crate) fn whole_at(key: &Key, table: &Table) -> u32
    ensures { result ≡ whole_at (key_view key.now) (table_view table.now) }
{
    let number = integer_at(key, table);
    match key.kind {
        Kind::Whole { low, high, usual } => match number {
            Some(number) => in_range(low, high, number).unwrap_or(usual),
            None => usual,
        },
        _ => 0,
    }
}

/// The text at a key that is required.
pub(crate) fn given(alloc: Global, key: &Key, table: &Table) -> M<Text>
    ensures { IfOk result (λ text. text ≡ given (key_view key.now) (table_view table.now)) }
{
    match text_at(table, key.name) {
        Some(text) => Text::new(alloc, text.as_bytes()),
        None => Ok(Text::empty(alloc)),
    }
}

/// The address at a key that is required.
pub(crate) fn addr_at(key: &Key, table: &Table) -> Addr
    ensures { result ≡ addr_at (key_view key.now) (table_view table.now) }
{
    let addr = match text_at(table, key.name) {
        Some(text) => addr_of(text.as_bytes()),
        None => None,
    };
    addr.unwrap_or(Addr { ip: 0, port: 0 })
}

/// How many members the table of a pool has, faulty ones too.
pub(crate) fn member_count(table: &Table) -> u32
    ensures { result ≡ member_count (table_view table.now) }
{
    match array_at(table, MEMBERS.name) {
        Some(values) => tables_in(values).min(u32::MAX as usize) as u32,
        None => 0,
    }
}

fn tables_in(values: &Array) -> usize
    ensures { result ≡ tables_in (array_view values.now) }
{
    let mut count = 0;
    for value in values {
        if value.as_table().is_some() {
            count += 1;
        }
    }
    count
}
