// How deep the arrays and tables of a table nest.

ghost use Rattle.std.specs.Prelude.{◌≡◌, ◌≤◌, true};
ghost use Rattle.toml.specs.Data.{depth, items_depth, members_depth};
ghost use Rattle.toml.specs.View.{array_view, table_view, view};

use toml::value::Array;
use toml::{Table, Value};

#[cycle(depth)]
fn value_fits(value: &Value, most: usize) -> bool
    ensures { result ≡ true → depth (view value.now) ≤ most }
{
    match value {
        Value::Array(items) => most > 0 && items_fit(items, most - 1),
        Value::Table(table) => most > 0 && table_fits(table, most - 1),
        _ => true,
    }
}

#[cycle(depth)]
fn items_fit(items: &Array, most: usize) -> bool
    ensures { result ≡ true → items_depth (array_view items.now) ≤ most }
{
    'items: for item in items {
        if !value_fits(item, most) {
            return false;
        }
    }
    true
}

/// Whether arrays and tables nest so deep in a table at most.
#[cycle(depth)]
pub(crate) fn table_fits(table: &Table, most: usize) -> bool
    ensures { result ≡ true → members_depth (table_view table.now) ≤ most }
{
    'members: for (_key, member) in table.iter() {
        if !value_fits(member, most) {
            return false;
        }
    }
    true
}
