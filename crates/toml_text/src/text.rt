// The text of a table.

ghost use Rattle.std.specs.Prelude.{IfOk};
ghost use Rattle.toml.specs.View.{table_view};
ghost use Rattle.toml_text.specs.Text.{IsTextOf};

use crate::depth::table_fits;
use px_bytes::{M, Memory, Text};
use std::alloc::Global;
use toml::{Table, table_to_string};

/// How deep arrays and tables may nest in what is read.
const DEEPEST: usize = 80;

/// The text of a table, keys in the order of their bytes. A table that no text gives, since it nests
/// deeper than may be read or has a date that isn't valid, has none: want of memory is answered too.
pub fn table_text(alloc: Global, table: &Table) -> M<Text>
    ensures { IfOk result (IsTextOf (table_view table.now)) }
{
    if !table_fits(table, DEEPEST) {
        return Err(Memory);
    }
    match table_to_string(alloc, table) {
        Ok(text) => Ok(Text::from_vec(text.into_bytes())),
        Err(_) => Err(Memory),
    }
}
