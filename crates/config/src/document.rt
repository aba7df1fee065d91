// What is wrong with a document.

ghost use Rattle.std.specs.Prelude.{◌≡◌, IfOk, OnOk};
ghost use Rattle.toml.specs.Data.{as_table};
ghost use Rattle.toml.specs.View.{array_view, table_view, view};
ghost use Rattle.config.specs.Documents.{document_fault, faults_with, item_faults, items_at};
ghost use Rattle.config.specs.Documents.{names_in};
ghost use Rattle.config.specs.Documents.{names_of, section_faults, section_from, section_key};
ghost use Rattle.config.specs.Documents.{table_faults};
ghost use Rattle.config.specs.Faults.{after_faults};
ghost use Rattle.config.specs.Keys.{key_view};
ghost use Rattle.config.specs.Places.{place_text};
ghost use Rattle.config.specs.Texts.{first_place, place_of};

use crate::fault::{ConfigFault, ConfigFaultKind};
use crate::index::{Index, index_of};
use crate::key::Key;
use crate::keys::{GROUP, LISTEN, NAME, POOL, RULE, VIRTUAL, top_keys};
use crate::known::Known;
use crate::place::Place;
use crate::section::Section;
use crate::table::array_at;
use crate::told::Told;
use crate::version::version_of;
use px_bytes::M;
use std::alloc::Global;
use toml::value::Array;
use toml::{Table, Value};

fn section_key(section: Section) -> Key
    ensures { key_view result ≡ section_key section }
{
    match section {
        Section::Virtual => VIRTUAL,
        Section::Pool => POOL,
        Section::Rule => RULE,
        Section::Group => GROUP,
    }
}

// The first places of the texts at a key in the tables of a section.
pub(crate) fn index_at(alloc: Global, section: &Key, key: &Key, top: &Table) -> M<Index>
    ensures { IfOk result (λ index. place_of index
        ≡ first_place (Some (key_view key.now).name)
        (items_at (key_view section.now) (table_view top.now))) }
{
    match array_at(top, section.name) {
        Some(values) => index_of(alloc, Some(key.name), values),
        None => Ok(Index::new(alloc)),
    }
}

// The names of a document.
fn names_in(alloc: Global, top: &Table) -> M<Known>
    ensures { IfOk result (λ known. names_of known ≡ names_in (table_view top.now)) }
{
    Ok(Known {
        version: version_of(top),
        servers: index_at(alloc, &VIRTUAL, &NAME, top)?,
        listens: index_at(alloc, &VIRTUAL, &LISTEN, top)?,
        pools: index_at(alloc, &POOL, &NAME, top)?,
        rules: index_at(alloc, &RULE, &NAME, top)?,
        groups: index_at(alloc, &GROUP, &NAME, top)?,
    })
}

impl Told {
    fn table(
        &mut self,
        known: &Known,
        section: Section,
        prefix: &str,
        at: usize,
        table: &Table,
    ) -> M<()>
        ensures { OnOk result (self.new ≡ after_faults (table_faults (names_of known.now) section
            prefix.now at (table_view table.now)) self.old) }
    {
        match section {
            Section::Virtual => self.server(known, prefix, at, table),
            Section::Pool => self.pool(known, prefix, at, table),
            Section::Rule => self.rule(known, prefix, at, table),
            Section::Group => self.group(known, prefix, at, table),
        }
    }

    fn item(
        &mut self,
        known: &Known,
        section: Section,
        place: Place<'_>,
        at: usize,
        value: &Value,
    ) -> M<()>
        ensures { OnOk result (self.new ≡ after_faults (item_faults (names_of known.now) section
            (place_text place.entry) at (as_table (view value.now))) self.old) }
    {
        match value.as_table() {
            Some(table) => {
                let prefix = place.inside(self.alloc)?;
                self.table(known, section, prefix.as_str(), at, table)
            }
            None => self.note(ConfigFaultKind::WrongKind, place),
        }
    }

    fn items(&mut self, known: &Known, section: Section, values: &Array) -> M<()>
        ensures { OnOk result (self.new ≡ after_faults (section_from (names_of known.now) section 0
            (array_view values.now)) self.old) }
    {
        let key = section_key(section).name;
        let mut at = 0;
        for value in values {
            let place = Place {
                prefix: "",
                key,
                item: Some(at),
            };
            self.item(known, section, place, at, value)?;
            at += 1;
        }
        Ok(())
    }

    fn section(&mut self, known: &Known, section: Section, top: &Table) -> M<()>
        ensures { OnOk result (self.new ≡ after_faults (section_faults (names_of known.now) section
            (table_view top.now)) self.old) }
    {
        match array_at(top, section_key(section).name) {
            Some(values) => self.items(known, section, values),
            None => Ok(()),
        }
    }

    fn document(&mut self, known: &Known, top: &Table) -> M<()>
        ensures { OnOk result (self.new ≡ after_faults (faults_with (names_of known.now)
            (table_view top.now)) self.old) }
    {
        let keys = top_keys(known.version);
        self.keys("", keys, top)?;
        self.unknown("", keys, top)?;
        self.section(known, Section::Virtual, top)?;
        self.section(known, Section::Pool, top)?;
        self.section(known, Section::Rule, top)?;
        self.section(known, Section::Group, top)
    }
}

/// What is wrong with a document, but for the texts of its rules.
pub(crate) fn document_fault(alloc: Global, top: &Table) -> M<Option<ConfigFault>>
    ensures { IfOk result (λ fault. fault ≡ document_fault (table_view top.now)) }
{
    let known = names_in(alloc, top)?;
    let mut told = Told::new(alloc);
    told.document(&known, top)?;
    Ok(told.first)
}
