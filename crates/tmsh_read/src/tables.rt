// Tables and arrays that are filled.

ghost use Rattle.std.specs.Prelude.{◌≡◌, OnOk, is_some};
ghost use Rattle.toml.specs.Data.{get_member, push_item};
ghost use Rattle.toml.specs.View.{array_view, table_view, view};
ghost use Rattle.tmsh_read.specs.Tables.{with_member};

use px_bytes::M;
use std::alloc::Global;
use toml::value::Array;
use toml::{Table, Value};

/// Puts a value at a key.
pub(crate) fn put(alloc: Global, table: &mut Table, key: &str, value: Value) -> M<()>
    ensures { OnOk result (table_view table.new
        ≡ with_member key.now (view value) (table_view table.old)) }
{
    let key = String::from_str(alloc, key)?;
    table.insert(key, value)?;
    Ok(())
}

/// Adds a value at the end.
pub(crate) fn add(array: &mut Array, value: Value) -> M<()>
    ensures { OnOk result (array_view array.new ≡ push_item (array_view array.old) (view value)) }
{
    array.push(value)?;
    Ok(())
}

/// Whether something stands at a key.
pub(crate) fn has(table: &Table, key: &str) -> bool
    ensures { result ≡ is_some (get_member key.now (table_view table.now)) }
{
    table.get(key).is_some()
}
