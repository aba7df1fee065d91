// What is wrong with a pool and with its members.

ghost use Rattle.std.specs.Prelude.{◌≡◌, ◌++◌, OnOk, map};
ghost use Rattle.toml.specs.Data.{as_table};
ghost use Rattle.toml.specs.View.{array_view, table_view, view};
ghost use Rattle.config.specs.Faults.{after_faults};
ghost use Rattle.config.specs.Keys.{key_view, members};
ghost use Rattle.config.specs.Places.{place_text};
ghost use Rattle.config.specs.Pools.{member_at, member_faults, members_from, members_of};
ghost use Rattle.config.specs.Pools.{pool_faults, pool_keys_faults};
ghost use Rattle.config.specs.Read.{array_at};
ghost use Rattle.config.specs.Tables.{keys_faults, unknown_faults};
ghost use Rattle.config.specs.Texts.{place_of};

use crate::fault::ConfigFaultKind;
use crate::index::{Index, index_of};
use crate::key::Key;
use crate::keys::{ADDR, MEMBERS, METHOD, NAME, member_keys, min_active};
use crate::known::Known;
use crate::place::Place;
use crate::read::member_count;
use crate::table::array_at;
use crate::told::Told;
use crate::version::Version;
use px_bytes::M;
use toml::value::Array;
use toml::{Table, Value};

// What members of a pool are judged by: the version, and the first places of their addresses.
#[derive(Drop)]
struct Own {
    version: Version,
    places: Index,
}

impl Told {
    fn member(&mut self, own: &Own, prefix: &str, at: usize, table: &Table) -> M<()>
        ensures { OnOk result (self.new ≡ after_faults (member_faults own.now.version
            (place_of own.now.places) prefix.now at (table_view table.now)) self.old) }
    {
        let keys = member_keys(own.version);
        self.keys(prefix, keys, table)?;
        self.unknown(prefix, keys, table)?;
        self.once(&own.places, at, prefix, &ADDR, table)
    }

    fn member_at(&mut self, own: &Own, place: Place<'_>, at: usize, value: &Value) -> M<()>
        ensures { OnOk result (self.new ≡ after_faults (member_at own.now.version
            (place_of own.now.places) (place_text place.entry) at (as_table (view value.now))) self.old) }
    {
        match value.as_table() {
            Some(table) => {
                let prefix = place.inside(self.alloc)?;
                self.member(own, prefix.as_str(), at, table)
            }
            None => self.note(ConfigFaultKind::WrongKind, place),
        }
    }

    fn members(&mut self, own: &Own, prefix: &str, values: &Array) -> M<()>
        ensures { OnOk result (self.new ≡ after_faults (members_from own.now.version
            (place_of own.now.places) prefix.now 0 (array_view values.now)) self.old) }
    {
        let mut at = 0;
        for value in values {
            let place = Place {
                prefix,
                key: MEMBERS.name,
                item: Some(at),
            };
            self.member_at(own, place, at, value)?;
            at += 1;
        }
        Ok(())
    }

    fn members_of(&mut self, version: Version, prefix: &str, table: &Table) -> M<()>
        ensures { OnOk result (self.new ≡ after_faults (members_of version prefix.now
            (array_at members (table_view table.now))) self.old) }
    {
        match array_at(table, MEMBERS.name) {
            Some(values) => {
                let places = index_of(self.alloc, Some(ADDR.name), values)?;
                self.members(&Own { version, places }, prefix, values)
            }
            None => Ok(()),
        }
    }

    // Looks at keys of a table, in their order, and for others.
    fn all_keys(&mut self, prefix: &str, keys: &[Key], table: &Table) -> M<()>
        ensures { OnOk result (self.new ≡ after_faults
            (keys_faults prefix.now (map key_view keys.now) (table_view table.now)
            ++ unknown_faults prefix.now (map key_view keys.now) (table_view table.now)) self.old) }
    {
        self.keys(prefix, keys, table)?;
        self.unknown(prefix, keys, table)
    }

    // Looks at the keys of the table of a pool.
    fn pool_keys(&mut self, version: Version, prefix: &str, table: &Table) -> M<()>
        ensures { OnOk result (self.new ≡ after_faults
            (pool_keys_faults version prefix.now (table_view table.now)) self.old) }
    {
        match version {
            Version::One => self.all_keys(prefix, &[NAME, METHOD, MEMBERS], table),
            Version::Two => {
                let most = member_count(table);
                self.all_keys(prefix, &[NAME, METHOD, MEMBERS, min_active(most)], table)
            }
        }
    }

    /// Looks at the table of a pool at this place.
    pub(crate) fn pool(&mut self, known: &Known, prefix: &str, at: usize, table: &Table) -> M<()>
        ensures { OnOk result (self.new ≡ after_faults (pool_faults known.now.version
            (place_of known.now.pools) prefix.now at (table_view table.now)) self.old) }
    {
        self.pool_keys(known.version, prefix, table)?;
        self.once(&known.pools, at, prefix, &NAME, table)?;
        self.members_of(known.version, prefix, table)
    }
}
