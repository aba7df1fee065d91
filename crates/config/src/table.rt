// What is wrong with the keys of a table.

ghost use Rattle.std.specs.Prelude.{◌≡◌, OnOk, option_map, option_and_then, map};
ghost use Rattle.std.specs.Option.{option_copied};
ghost use Rattle.toml.specs.Data.{as_array, as_str, get_member};
ghost use Rattle.toml.specs.View.{array_view, table_view, view};
ghost use Rattle.config.specs.Faults.{after_faults};
ghost use Rattle.config.specs.Keys.{key_view};
ghost use Rattle.config.specs.Texts.{text_at};
ghost use Rattle.config.specs.Tables.{is_known, key_faults, key_flaw, keys_faults, unknown_faults};

use crate::fault::ConfigFaultKind;
use crate::key::Key;
use crate::place::Place;
use crate::told::Told;
use crate::value::flaw;
use px_bytes::M;
use toml::value::Array;
use toml::{Table, Value};

/// The value at a key.
pub(crate) fn value_at<'a>(table: &'a Table, key: &str) -> Option<&'a Value>
    ensures { option_map (λ v. view v.now) result ≡ get_member key.now (table_view table.now) }
{
    table.get(key)
}

/// The text at a key.
pub(crate) fn text_at<'a>(table: &'a Table, key: &str) -> Option<&'a str>
    ensures { option_copied result ≡ text_at key.now (table_view table.now) }
{
    match value_at(table, key) {
        Some(value) => value.as_str(),
        None => None,
    }
}

/// The array at a key.
pub(crate) fn array_at<'a>(table: &'a Table, key: &str) -> Option<&'a Array>
    ensures { option_map (λ v. array_view v.now) result
        ≡ option_and_then as_array (get_member key.now (table_view table.now)) }
{
    match value_at(table, key) {
        Some(value) => value.as_array(),
        None => None,
    }
}

// What is wrong with what stands at a key.
fn key_flaw(key: &Key, table: &Table) -> Option<ConfigFaultKind>
    ensures { result ≡ key_flaw (key_view key.now) (table_view table.now) }
{
    match value_at(table, key.name) {
        Some(value) => flaw(key.kind, value),
        None if key.required => Some(ConfigFaultKind::WrongKind),
        None => None,
    }
}

fn is_known(keys: &[Key], name: &str) -> bool
    ensures { result ≡ is_known (map key_view keys.now) name.now }
{
    for key in keys {
        if key.name == name {
            return true;
        }
    }
    false
}

impl Told {
    // Looks at a key of a table.
    fn key(&mut self, prefix: &str, key: &Key, table: &Table) -> M<()>
        ensures { OnOk result (self.new ≡ after_faults
            (key_faults prefix.now (table_view table.now) (key_view key.now)) self.old) }
    {
        if let Some(kind) = key_flaw(key, table) {
            let place = Place {
                prefix,
                key: key.name,
                item: None,
            };
            self.note(kind, place)?;
        }
        Ok(())
    }

    /// Looks at keys of a table, in their order.
    pub(crate) fn keys(&mut self, prefix: &str, keys: &[Key], table: &Table) -> M<()>
        ensures { OnOk result (self.new ≡ after_faults
            (keys_faults prefix.now (map key_view keys.now) (table_view table.now)) self.old) }
    {
        for key in keys {
            self.key(prefix, key, table)?;
        }
        Ok(())
    }

    /// Looks for keys that a table of these keys doesn't have.
    pub(crate) fn unknown(&mut self, prefix: &str, keys: &[Key], table: &Table) -> M<()>
        ensures { OnOk result (self.new ≡ after_faults
            (unknown_faults prefix.now (map key_view keys.now) (table_view table.now)) self.old) }
    {
        for (name, _value) in table {
            if !is_known(keys, name.as_str()) {
                let place = Place {
                    prefix,
                    key: name.as_str(),
                    item: None,
                };
                self.note(ConfigFaultKind::UnknownKey, place)?;
            }
        }
        Ok(())
    }
}
