// What is wrong with a rule, but for its text.

ghost use Rattle.std.specs.Prelude.{◌≡◌, OnOk};
ghost use Rattle.toml.specs.View.{table_view};
ghost use Rattle.config.specs.Faults.{after_faults};
ghost use Rattle.config.specs.Keys.{key_view};
ghost use Rattle.config.specs.Rules.{has, rule_faults, source_faults};
ghost use Rattle.config.specs.Texts.{place_of};

use crate::fault::ConfigFaultKind;
use crate::key::Key;
use crate::keys::{FILE, NAME, RULE_KEYS, TEXT};
use crate::known::Known;
use crate::place::Place;
use crate::table::value_at;
use crate::told::Told;
use px_bytes::M;
use toml::Table;

fn has(key: &Key, table: &Table) -> bool
    ensures { result ≡ has (key_view key.now) (table_view table.now) }
{
    match value_at(table, key.name) {
        Some(_) => true,
        None => false,
    }
}

impl Told {
    // Looks whether a rule has just one of its text and the name of its file.
    fn source(&mut self, prefix: &str, table: &Table) -> M<()>
        ensures { OnOk result (self.new
            ≡ after_faults (source_faults prefix.now (table_view table.now)) self.old) }
    {
        if has(&TEXT, table) == has(&FILE, table) {
            let place = Place {
                prefix,
                key: TEXT.name,
                item: None,
            };
            self.note(ConfigFaultKind::Range, place)?;
        }
        Ok(())
    }

    /// Looks at the table of a rule at this place.
    pub(crate) fn rule(&mut self, known: &Known, prefix: &str, at: usize, table: &Table) -> M<()>
        ensures { OnOk result (self.new ≡ after_faults (rule_faults (place_of known.now.rules)
            prefix.now at (table_view table.now)) self.old) }
    {
        self.keys(prefix, &RULE_KEYS, table)?;
        self.unknown(prefix, &RULE_KEYS, table)?;
        self.once(&known.rules, at, prefix, &NAME, table)?;
        self.source(prefix, table)
    }
}
