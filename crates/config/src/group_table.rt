// What the table of a data group configures.

ghost use Rattle.std.specs.Prelude.{◌≡◌, ◌++◌, IfOk, OnOk};
ghost use Rattle.toml.specs.View.{array_view, table_view, view};
ghost use Rattle.config.specs.Documents.{items_at};
ghost use Rattle.config.specs.Keys as key;
ghost use Rattle.config.specs.Settings.{each, group_item, group_of, row_item};

use crate::config::GroupSettings;
use crate::groups::group_kind;
use crate::keys::{NAME, ROWS};
use crate::read::given;
use crate::row::row_of;
use crate::table::array_at;
use data_groups::{GroupKind, GroupRows};
use px_bytes::{M, Seq, Text};
use std::alloc::Global;
use toml::value::Array;
use toml::{Table, Value};

fn push_row(rows: &mut GroupRows, alloc: Global, value: &Value) -> M<()>
    ensures { OnOk result (rows.new ≡ rows.old ++ row_item (view value.now)) }
{
    match row_of(value) {
        Some(row) => {
            let key = Text::new(alloc, row.key)?;
            rows.push((key, Text::new(alloc, row.value)?))
        }
        None => Ok(()),
    }
}

fn rows_of(alloc: Global, values: &Array) -> M<GroupRows>
    ensures { IfOk result (λ xs. xs ≡ each row_item (array_view values.now)) }
{
    let mut rows = GroupRows::new(alloc);
    for value in values {
        push_row(&mut rows, alloc, value)?;
    }
    Ok(rows)
}

fn rows_at(alloc: Global, table: &Table) -> M<GroupRows>
    ensures { IfOk result (λ xs. xs ≡ each row_item (items_at key.rows (table_view table.now))) }
{
    match array_at(table, ROWS.name) {
        Some(values) => rows_of(alloc, values),
        None => Ok(GroupRows::new(alloc)),
    }
}

fn group_of(alloc: Global, table: &Table) -> M<GroupSettings>
    ensures { IfOk result (λ group. group ≡ group_of (table_view table.now)) }
{
    Ok(GroupSettings {
        name: given(alloc, &NAME, table)?,
        kind: group_kind(table).unwrap_or(GroupKind::String),
        rows: rows_at(alloc, table)?,
    })
}

fn push_group(groups: &mut Seq<GroupSettings>, alloc: Global, value: &Value) -> M<()>
    ensures { OnOk result (groups.new ≡ groups.old ++ group_item (view value.now)) }
{
    match value.as_table() {
        Some(table) => groups.push(group_of(alloc, table)?),
        None => Ok(()),
    }
}

/// The groups that the tables of an array configure.
pub(crate) fn groups_of(alloc: Global, values: &Array) -> M<Seq<GroupSettings>>
    ensures { IfOk result (λ xs. xs ≡ each group_item (array_view values.now)) }
{
    let mut groups = Seq::new(alloc);
    for value in values {
        push_group(&mut groups, alloc, value)?;
    }
    Ok(groups)
}
