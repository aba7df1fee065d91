// What is wrong with a virtual server.

ghost use Rattle.std.specs.Prelude.{◌≡◌, OnOk};
ghost use Rattle.toml.specs.Data.{as_str};
ghost use Rattle.toml.specs.View.{array_view, table_view, view};
ghost use Rattle.config.specs.Faults.{after_faults};
ghost use Rattle.config.specs.Places.{place_text};
ghost use Rattle.config.specs.Read.{array_at};
ghost use Rattle.config.specs.Keys.{rule_names};
ghost use Rattle.config.specs.Texts.{place_of};
ghost use Rattle.config.specs.Virtuals.{by_cookie, cookie_faults, rule_faults, rules_from};
ghost use Rattle.config.specs.Virtuals.{rules_of};
ghost use Rattle.config.specs.Virtuals.{server_faults};

use crate::fault::ConfigFaultKind;
use crate::index::{Index, index_of};
use crate::keys::{
    HTTP, LISTEN, NAME, PERSIST, POOL_NAME, RULES, VIRTUAL_BACK, VIRTUAL_FRONT, VIRTUAL_KEYS,
};
use crate::known::Known;
use crate::place::Place;
use crate::table::array_at;
use crate::told::Told;
use crate::twice::{missing, twice};
use crate::words::{chosen, truth_at};
use px_bytes::M;
use toml::value::Array;
use toml::{Table, Value};

/// The place of the word `cookie`.
const BY_COOKIE: usize = 2;

fn by_cookie(table: &Table) -> bool
    ensures { result ≡ by_cookie (table_view table.now) }
{
    chosen(&PERSIST, table) == Some(BY_COOKIE)
}

impl Told {
    // Looks whether cookies are asked for without HTTP.
    fn cookie(&mut self, prefix: &str, table: &Table) -> M<()>
        ensures { OnOk result (self.new
            ≡ after_faults (cookie_faults prefix.now (table_view table.now)) self.old) }
    {
        if by_cookie(table) && !truth_at(&HTTP, table) {
            let place = Place {
                prefix,
                key: PERSIST.name,
                item: None,
            };
            self.note(ConfigFaultKind::Range, place)?;
        }
        Ok(())
    }

    // Looks at a rule of a virtual server.
    fn rule_name(
        &mut self,
        rules: &Index,
        own: &Index,
        place: Place<'_>,
        at: usize,
        value: &Value,
    ) -> M<()>
        ensures { OnOk result (self.new ≡ after_faults (rule_faults (place_of rules.now)
            (place_of own.now) (place_text place.entry) at (as_str (view value.now))) self.old) }
    {
        let name = value.as_str();
        if name.is_none() {
            return self.note(ConfigFaultKind::WrongKind, place);
        }
        self.note_if(twice(own, at, name), place)?;
        self.note_if(missing(rules, name), place)
    }

    // Looks at the rules of a virtual server.
    fn rule_names(&mut self, rules: &Index, own: &Index, prefix: &str, values: &Array) -> M<()>
        ensures { OnOk result (self.new ≡ after_faults (rules_from (place_of rules.now)
            (place_of own.now) prefix.now 0 (array_view values.now)) self.old) }
    {
        let mut at = 0;
        for value in values {
            let place = Place {
                prefix,
                key: RULES.name,
                item: Some(at),
            };
            self.rule_name(rules, own, place, at, value)?;
            at += 1;
        }
        Ok(())
    }

    fn rules_of(&mut self, rules: &Index, prefix: &str, table: &Table) -> M<()>
        ensures { OnOk result (self.new ≡ after_faults (rules_of (place_of rules.now) prefix.now
            (array_at rule_names (table_view table.now))) self.old) }
    {
        match array_at(table, RULES.name) {
            Some(values) => {
                let own = index_of(self.alloc, None, values)?;
                self.rule_names(rules, &own, prefix, values)
            }
            None => Ok(()),
        }
    }

    /// Looks at the table of a virtual server at this place.
    pub(crate) fn server(&mut self, known: &Known, prefix: &str, at: usize, table: &Table) -> M<()>
        ensures { OnOk result (self.new ≡ after_faults (server_faults (place_of known.now.servers)
            (place_of known.now.listens) (place_of known.now.pools) (place_of known.now.rules)
            prefix.now at (table_view table.now)) self.old) }
    {
        self.keys(prefix, &VIRTUAL_FRONT, table)?;
        self.cookie(prefix, table)?;
        self.keys(prefix, &VIRTUAL_BACK, table)?;
        self.unknown(prefix, &VIRTUAL_KEYS, table)?;
        self.once(&known.servers, at, prefix, &NAME, table)?;
        self.once(&known.listens, at, prefix, &LISTEN, table)?;
        self.there(&known.pools, prefix, &POOL_NAME, table)?;
        self.rules_of(&known.rules, prefix, table)
    }
}
