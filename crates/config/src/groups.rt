// What is wrong with a data group.

ghost use Rattle.std.specs.Prelude.{◌≡◌, OnOk};
ghost use Rattle.data_groups.specs.Groups.{is_key};
ghost use Rattle.toml.specs.View.{array_view, table_view, view};
ghost use Rattle.config.specs.Faults.{after_faults};
ghost use Rattle.config.specs.Groups.{group_faults, group_kind, kind_at, row_flaw, row_of};
ghost use Rattle.config.specs.Groups.{rows_from, rows_of};
ghost use Rattle.config.specs.Keys.{rows};
ghost use Rattle.config.specs.Read.{array_at};
ghost use Rattle.config.specs.Texts.{place_of};

use crate::fault::ConfigFaultKind;
use crate::keys::{GROUP_KEYS, NAME, ROWS, TYPE};
use crate::known::Known;
use crate::place::Place;
use crate::row::{RowTexts, row_of};
use crate::table::array_at;
use crate::told::Told;
use crate::value::judged;
use crate::words::chosen;
use data_groups::GroupKind;
use px_bytes::{M, read_whole};
use tcl_encodings::read_network;
use toml::value::Array;
use toml::{Table, Value};

fn kind_at(at: usize) -> GroupKind
    ensures { result ≡ kind_at at }
{
    match at {
        0 => GroupKind::String,
        1 => GroupKind::Ip,
        _ => GroupKind::Integer,
    }
}

/// The kind of the keys of a group, where it has one.
pub(crate) fn group_kind(table: &Table) -> Option<GroupKind>
    ensures { result ≡ group_kind (table_view table.now) }
{
    match chosen(&TYPE, table) {
        Some(at) => Some(kind_at(at)),
        None => None,
    }
}

fn is_key(kind: GroupKind, key: &[u8]) -> bool
    ensures { result ≡ is_key kind key.now }
{
    match kind {
        GroupKind::String => true,
        GroupKind::Ip => read_network(key).is_some(),
        GroupKind::Integer => read_whole(key).is_some(),
    }
}

// What is wrong with a row.
fn row_flaw(kind: Option<GroupKind>, value: &Value) -> Option<ConfigFaultKind>
    ensures { result ≡ row_flaw kind (view value.now) }
{
    let fits = match (row_of(value), kind) {
        (None, _) => None,
        (Some(_), None) => Some(true),
        (Some(row), Some(kind)) => Some(is_key(kind, row.key)),
    };
    judged(fits)
}

impl Told {
    fn rows(&mut self, kind: Option<GroupKind>, prefix: &str, values: &Array) -> M<()>
        ensures { OnOk result (self.new ≡ after_faults (rows_from kind prefix.now 0
            (array_view values.now)) self.old) }
    {
        let mut at = 0;
        for value in values {
            let place = Place {
                prefix,
                key: ROWS.name,
                item: Some(at),
            };
            self.note_if(row_flaw(kind, value), place)?;
            at += 1;
        }
        Ok(())
    }

    fn rows_of(&mut self, prefix: &str, table: &Table) -> M<()>
        ensures { OnOk result (self.new ≡ after_faults (rows_of (group_kind (table_view table.now))
            prefix.now (array_at rows (table_view table.now))) self.old) }
    {
        match array_at(table, ROWS.name) {
            Some(values) => self.rows(group_kind(table), prefix, values),
            None => Ok(()),
        }
    }

    /// Looks at the table of a group at this place.
    pub(crate) fn group(&mut self, known: &Known, prefix: &str, at: usize, table: &Table) -> M<()>
        ensures { OnOk result (self.new ≡ after_faults (group_faults (place_of known.now.groups)
            prefix.now at (table_view table.now)) self.old) }
    {
        self.keys(prefix, &GROUP_KEYS, table)?;
        self.unknown(prefix, &GROUP_KEYS, table)?;
        self.once(&known.groups, at, prefix, &NAME, table)?;
        self.rows_of(prefix, table)
    }
}
