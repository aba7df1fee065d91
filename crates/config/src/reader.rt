// The reader of configurations.

ghost use Rattle.std.specs.Prelude.{◌≡◌, ◌≤◌, IfOk, IfErr, Some, length};
ghost use Rattle.toml.specs.View.{table_view};
ghost use Rattle.config.specs.Documents.{document_fault, items_at};
ghost use Rattle.config.specs.Keys.{name_key};
ghost use Rattle.config.specs.Keys as key;
ghost use Rattle.config.specs.Loading.{OfFault};
ghost use Rattle.config.specs.Misplaced.{first_misplaced};
ghost use Rattle.config.specs.TextRows.{AllAreTexts};
ghost use Rattle.config.specs.Texts.{first_place};
ghost use Rattle.config.specs.Outcomes.{Answers, IsDocument, Loads, OfDocument, RefusesDocument};
ghost use Rattle.config.specs.Outcomes.{not_toml, told_fault};
ghost use Rattle.toml.specs.Errors.{IsWithin, span_start};

use crate::config::Settings;
use crate::document::{document_fault, index_at};
use crate::fault::{ConfigError, ConfigFault, ConfigFaultKind};
use crate::key_line::with_line;
use crate::keys::{NAME, RULE};
use crate::loaded_rules::LoadedRules;
use crate::loading::rules_at;
use crate::misplaced::{Misplaced, first_misplaced};
use crate::rule_fault::misplaced_fault;
use crate::rule_text::{LoadedRule, read_file};
use crate::settings::settings_of;
use crate::spot::{Source, spot_at};
use px_bytes::{M, Text};
use px_outside::Files;
use std::alloc::Global;
use toml::Table;

/// A configuration: what its document says, and its rules, loaded, in the order of the document.
#[derive(Drop)]
pub struct LoadedConfig {
    pub settings: Settings,
    pub rules: LoadedRules,
}

// Where the reader of TOML stopped.
fn stopped_at(bytes: &[u8], fault: &toml::de::Error) -> usize
    requires { IsWithin bytes.now fault.now }
    ensures { result ≤ length bytes.now }
{
    match fault.span() {
        Some(span) => span.start,
        None => 0,
    }
}

// What is wrong with a text that is no TOML, where its reader stopped there and says this.
fn not_toml(alloc: Global, name: &[u8], bytes: &[u8], place: usize, said: &str) -> M<ConfigFault>
    ensures { IfOk result (λ fault. fault ≡ not_toml name.now bytes.now place said.now) }
{
    let source = Source::Document(Text::new(alloc, said.as_bytes())?);
    let spot = spot_at(alloc, source, bytes, place)?;
    Ok(ConfigFault {
        kind: ConfigFaultKind::NotToml,
        place: Text::new(alloc, name)?,
        spot: Some(spot),
    })
}

/// The table of a document's bytes.
pub(crate) fn read_table(alloc: Global, name: &[u8], bytes: &[u8]) -> Result<Table, ConfigError>
    ensures table { IfOk result (λ t. IsDocument bytes.now (table_view t)) }
    ensures refused { IfErr result (OfFault (RefusesDocument name.now bytes.now)) }
{
    match toml::table_from_slice(alloc, bytes) {
        Ok(table) => Ok(table),
        Err(fault) => {
            if fault.is_memory() {
                return Err(ConfigError::Memory);
            }
            let place = stopped_at(bytes, &fault);
            Err(ConfigError::Fault(not_toml(alloc, name, bytes, place, fault.message())?))
        }
    }
}

// A rule on a virtual server that doesn't have one of its events.
fn misplaced_of(
    alloc: Global,
    top: &Table,
    settings: &Settings,
    rules: &[LoadedRule],
) -> M<Option<Misplaced>>
    ensures { IfOk result (λ found. found ≡ first_misplaced
        (first_place (Some name_key.name) (items_at key.rules (table_view top.now))) rules.now
        settings.now.virtuals) }
{
    let index = index_at(alloc, &RULE, &NAME, top)?;
    Ok(first_misplaced(&index, rules, settings.virtuals.as_slice()))
}

// The configuration of a document without faults.
#[tactic(auto, using(crate::proofs::RowsAreTexts::rows_are_texts))]
fn loaded<F: Files>(alloc: Global, files: &mut F, top: &Table) -> Result<LoadedConfig, ConfigError>
    ensures answer { Loads (F.told files.old) (F.faults files.old) (F.faults files.new)
        (table_view top.now) result }
    ensures texts { IfOk result (λ C. AllAreTexts C.settings.groups) }
    ensures same_files { F.told files.new ≡ F.told files.old }
    ensures faults_never_fall { F.faults files.old ≤ F.faults files.new }
{
    let settings = settings_of(alloc, top)?;
    let rules = rules_at(alloc, files, top)?;
    match misplaced_of(alloc, top, &settings, rules.as_slice())? {
        None => Ok(LoadedConfig { settings, rules }),
        Some(found) => Err(ConfigError::Fault(misplaced_fault(alloc, rules.as_slice(), found)?)),
    }
}

/// The configuration that the document of these bytes is.
pub(crate) fn of_document<F: Files>(
    alloc: Global,
    files: &mut F,
    bytes: &[u8],
    top: &Table,
) -> Result<LoadedConfig, ConfigError>
    ensures answer { OfDocument (F.told files.old) (F.faults files.old) (F.faults files.new)
        (table_view top.now) (told_fault bytes.now (table_view top.now)) result }
    ensures texts { IfOk result (λ C. AllAreTexts C.settings.groups) }
    ensures same_files { F.told files.new ≡ F.told files.old }
    ensures faults_never_fall { F.faults files.old ≤ F.faults files.new }
{
    match document_fault(alloc, top)? {
        Some(fault) => Err(ConfigError::Fault(with_line(alloc, bytes, fault)?)),
        None => loaded(alloc, files, top),
    }
}

/// The configuration that a table is, or what is wrong with it first; a key stands on no line.
pub fn table_config<F: Files>(
    alloc: Global,
    files: &mut F,
    table: &Table,
) -> Result<LoadedConfig, ConfigError>
    ensures answer { OfDocument (F.told files.old) (F.faults files.old) (F.faults files.new)
        (table_view table.now) (document_fault (table_view table.now)) result }
    ensures same_files { F.told files.new ≡ F.told files.old }
    ensures faults_never_fall { F.faults files.old ≤ F.faults files.new }
{
    match document_fault(alloc, table)? {
        Some(fault) => Err(ConfigError::Fault(fault)),
        None => loaded(alloc, files, table),
    }
}

/// The configuration that a file is, or what is wrong with it first.
pub fn read_config<F: Files>(
    alloc: Global,
    files: &mut F,
    name: &[u8],
) -> Result<LoadedConfig, ConfigError>
    ensures answer { Answers (F.told files.old) (F.faults files.old) (F.faults files.new) name.now
        result }
    ensures texts { IfOk result (λ C. AllAreTexts C.settings.groups) }
    ensures same_files { F.told files.new ≡ F.told files.old }
    ensures faults_never_fall { F.faults files.old ≤ F.faults files.new }
{
    let held = read_file(alloc, files, name)?;
    let bytes = held.as_bytes();
    let top = read_table(alloc, name, bytes)?;
    of_document(alloc, files, bytes, &top)
}
