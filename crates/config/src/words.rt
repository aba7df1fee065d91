// Truths and words at keys.

ghost use Rattle.std.specs.Prelude.{◌≡◌};
ghost use Rattle.toml.specs.View.{table_view};
ghost use Rattle.config.specs.Keys.{key_view};
ghost use Rattle.config.specs.Read.{chosen, truth_at};

use crate::key::{Key, Kind};
use crate::table::{text_at, value_at};
use crate::value::word_place;
use toml::Table;

/// The place of the text at a key among its words.
pub(crate) fn chosen(key: &Key, table: &Table) -> Option<usize>
    ensures { result ≡ chosen (key_view key.now) (table_view table.now) }
{
    let text = text_at(table, key.name)?;
    match key.kind {
        Kind::OneOf(words) => word_place(words, text),
        _ => None,
    }
}

/// Whether true stands at a key.
pub(crate) fn truth_at(key: &Key, table: &Table) -> bool
    ensures { result ≡ truth_at (key_view key.now) (table_view table.now) }
{
    match value_at(table, key.name) {
        Some(value) => value.as_bool() == Some(true),
        None => false,
    }
}
