// What is wrong with a monitors' file.

ghost use Rattle.std.specs.Prelude.{◌≡◌, IfOk, OnOk, map};
ghost use Rattle.std.specs.Option.{option_copied};
ghost use Rattle.toml.specs.Data.{as_table};
ghost use Rattle.toml.specs.View.{array_view, table_view, view};
ghost use Rattle.config.specs.Faults.{after_faults};
ghost use Rattle.config.specs.Names.{missing, twice};
ghost use Rattle.config.specs.Texts.{place_of};
ghost use Rattle.pool_monitor.specs.Documents.{check_faults, document_fault, faults_with};
ghost use Rattle.pool_monitor.specs.Documents.{is_known, item_faults, items_faults, key_faults};
ghost use Rattle.pool_monitor.specs.Documents.{key_flaw, monitors_faults, place_text, pool_faults};
ghost use Rattle.pool_monitor.specs.Documents.{probing_at, table_faults, unknown_faults};
ghost use Rattle.pool_monitor.specs.Keys.{key_view};

use crate::index::{Index, named_pools, pool_places};
use crate::key::Key;
use crate::keys::{
    INTERVAL, ITEM_NAMES, KIND, MONITORS, POOL, TIMEOUT, TOP_NAMES, VERSION, recv_key, send_key,
};
use crate::place::Place;
use crate::table::{array_at, text_at, value_at};
use crate::told::Told;
use crate::value::{Probing, flaw, probing_of};
use config::{ConfigFault, ConfigFaultKind, PoolSettings};
use px_bytes::M;
use std::alloc::Global;
use toml::value::Array;
use toml::{Table, Value};

// What is wrong with what stands at a key.
fn key_flaw(key: &Key, table: &Table) -> Option<ConfigFaultKind>
    ensures { result ≡ key_flaw (key_view key.now) (table_view table.now) }
{
    match value_at(table, key.name) {
        Some(value) => flaw(key.kind, value),
        None if key.required => Some(ConfigFaultKind::WrongKind),
        None => None,
    }
}

fn is_known(names: &[&str], name: &str) -> bool
    ensures { result ≡ is_known (map (λ n. n.now) names.now) name.now }
{
    for known in names {
        if *known == name {
            return true;
        }
    }
    false
}

// What is wrong with the name of the item at this place, among those of its array.
fn twice(index: &Index, at: usize, text: Option<&str>) -> Option<ConfigFaultKind>
    ensures { result ≡ twice (place_of index.now) at (option_copied text.entry) }
{
    match index.find(text?.as_bytes()) {
        Some(first) if first == at => None,
        _ => Some(ConfigFaultKind::Twice),
    }
}

// What is wrong with a name of something there.
fn missing(index: &Index, text: Option<&str>) -> Option<ConfigFaultKind>
    ensures { result ≡ missing (place_of index.now) (option_copied text.entry) }
{
    match index.find(text?.as_bytes()) {
        Some(_) => None,
        None => Some(ConfigFaultKind::NoSuch),
    }
}

/// By what the pool of a table is probed.
pub(crate) fn probing_at(table: &Table) -> Probing
    ensures { result ≡ probing_at (table_view table.now) }
{
    match text_at(table, KIND.name) {
        Some(word) => probing_of(word),
        None => Probing::Unknown,
    }
}

impl Told {
    // Looks at a key of a table.
    fn key(&mut self, prefix: &str, key: &Key, table: &Table) -> M<()>
        ensures { OnOk result (self.new ≡ after_faults
            (key_faults prefix.now (table_view table.now) (key_view key.now)) self.old) }
    {
        let place = Place {
            prefix,
            key: key.name,
            item: None,
        };
        self.note_if(key_flaw(key, table), place)
    }

    // Looks for keys that a table doesn't have.
    fn unknown(&mut self, prefix: &str, names: &[&str], table: &Table) -> M<()>
        ensures { OnOk result (self.new ≡ after_faults
            (unknown_faults prefix.now (map (λ n. n.now) names.now) (table_view table.now))
            self.old) }
    {
        for (name, _value) in table {
            if !is_known(names, name.as_str()) {
                let place = Place {
                    prefix,
                    key: name.as_str(),
                    item: None,
                };
                self.note(ConfigFaultKind::UnknownKey, place)?;
            }
        }
        Ok(())
    }

    // Looks at a key that only a probe by HTTP has.
    fn check(&mut self, prefix: &str, probing: Probing, key: &Key, table: &Table) -> M<()>
        ensures { OnOk result (self.new ≡ after_faults (check_faults probing prefix.now
            (key_view key.now) (table_view table.now)) self.old) }
    {
        match probing {
            Probing::Tcp => {
                let place = Place {
                    prefix,
                    key: key.name,
                    item: None,
                };
                match value_at(table, key.name) {
                    Some(_) => self.note(ConfigFaultKind::UnknownKey, place),
                    None => Ok(()),
                }
            }
            _ => self.key(prefix, key, table),
        }
    }

    // Looks at the pool that a table names.
    fn pool(
        &mut self,
        pools: &Index,
        named: &Index,
        prefix: &str,
        at: usize,
        table: &Table,
    ) -> M<()>
        ensures { OnOk result (self.new ≡ after_faults (pool_faults (place_of pools.now)
            (place_of named.now) prefix.now at (table_view table.now)) self.old) }
    {
        let place = Place {
            prefix,
            key: POOL.name,
            item: None,
        };
        let name = text_at(table, POOL.name);
        self.key(prefix, &POOL, table)?;
        self.note_if(twice(named, at, name), place)?;
        self.note_if(missing(pools, name), place)
    }

    // Looks at a monitor's table.
    fn table(
        &mut self,
        pools: &Index,
        named: &Index,
        prefix: &str,
        at: usize,
        table: &Table,
    ) -> M<()>
        ensures { OnOk result (self.new ≡ after_faults (table_faults (place_of pools.now)
            (place_of named.now) prefix.now at (table_view table.now)) self.old) }
    {
        let probing = probing_at(table);
        let is_http = matches!(probing, Probing::Http);
        self.pool(pools, named, prefix, at, table)?;
        self.key(prefix, &KIND, table)?;
        self.key(prefix, &INTERVAL, table)?;
        self.key(prefix, &TIMEOUT, table)?;
        self.check(prefix, probing, &send_key(is_http), table)?;
        self.check(prefix, probing, &recv_key(is_http), table)?;
        self.unknown(prefix, &ITEM_NAMES, table)
    }

    fn item(
        &mut self,
        pools: &Index,
        named: &Index,
        place: Place<'_>,
        at: usize,
        value: &Value,
    ) -> M<()>
        ensures { OnOk result (self.new ≡ after_faults (item_faults (place_of pools.now)
            (place_of named.now) (place_text place.entry) at (as_table (view value.now)))
            self.old) }
    {
        match value.as_table() {
            Some(table) => {
                let prefix = place.inside(self.alloc)?;
                self.table(pools, named, prefix.as_str(), at, table)
            }
            None => self.note(ConfigFaultKind::WrongKind, place),
        }
    }

    fn items(&mut self, pools: &Index, named: &Index, values: &Array) -> M<()>
        ensures { OnOk result (self.new ≡ after_faults (items_faults (place_of pools.now)
            (place_of named.now) 0 (array_view values.now)) self.old) }
    {
        let mut at = 0;
        for value in values {
            let place = Place {
                prefix: "",
                key: MONITORS.name,
                item: Some(at),
            };
            self.item(pools, named, place, at, value)?;
            at += 1;
        }
        Ok(())
    }

    fn monitors(&mut self, pools: &Index, top: &Table) -> M<()>
        ensures { OnOk result (self.new ≡ after_faults (monitors_faults (place_of pools.now)
            (table_view top.now)) self.old) }
    {
        match array_at(top, MONITORS.name) {
            Some(values) => {
                let named = named_pools(self.alloc, values)?;
                self.items(pools, &named, values)
            }
            None => Ok(()),
        }
    }

    fn document(&mut self, pools: &Index, top: &Table) -> M<()>
        ensures { OnOk result (self.new ≡ after_faults (faults_with (place_of pools.now)
            (table_view top.now)) self.old) }
    {
        self.key("", &VERSION, top)?;
        self.key("", &MONITORS, top)?;
        self.unknown("", &TOP_NAMES, top)?;
        self.monitors(pools, top)
    }
}

/// What is wrong with a monitors' file of a configuration with these pools.
pub(crate) fn document_fault(
    alloc: Global,
    pools: &[PoolSettings],
    top: &Table,
) -> M<Option<ConfigFault>>
    ensures { IfOk result (λ fault. fault ≡ document_fault pools.now (table_view top.now)) }
{
    let index = pool_places(alloc, pools)?;
    let mut told = Told::new(alloc);
    told.document(&index, top)?;
    Ok(told.first)
}
