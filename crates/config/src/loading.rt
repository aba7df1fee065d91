// The rules of a document.

ghost use Rattle.std.specs.Prelude.{◌≡◌, ◌≤◌, IfOk, IfErr};
ghost use Rattle.toml.specs.View.{array_view, table_view};
ghost use Rattle.config.specs.Documents.{items_at};
ghost use Rattle.config.specs.Keys as key;
ghost use Rattle.config.specs.Loading.{AreLoaded, OfFault, StopsAt};

use crate::fault::ConfigError;
use crate::keys::RULE;
use crate::loaded_rules::LoadedRules;
use crate::rule_text::rule_of;
use crate::table::array_at;
use px_outside::Files;
use std::alloc::Global;
use toml::Table;
use toml::value::Array;

fn rules_of<F: Files>(
    alloc: Global,
    files: &mut F,
    values: &Array,
) -> Result<LoadedRules, ConfigError>
    ensures loaded { IfOk result (AreLoaded (F.told files.old) (array_view values.now)) }
    ensures fault { IfErr result (OfFault (StopsAt (F.told files.old) (F.faults files.old)
        (F.faults files.new) 0 (array_view values.now))) }
    ensures same_files { F.told files.new ≡ F.told files.old }
    ensures faults_never_fall { F.faults files.old ≤ F.faults files.new }
{
    let mut rules = LoadedRules::new(alloc);
    let mut at = 0;
    for value in values {
        let rule = rule_of(alloc, files, at, value)?;
        rules.push(rule)?;
        at += 1;
    }
    Ok(rules)
}

/// The rules of a document, each read and loaded in its turn.
pub(crate) fn rules_at<F: Files>(
    alloc: Global,
    files: &mut F,
    top: &Table,
) -> Result<LoadedRules, ConfigError>
    ensures loaded { IfOk result
        (AreLoaded (F.told files.old) (items_at key.rules (table_view top.now))) }
    ensures fault { IfErr result (OfFault (StopsAt (F.told files.old) (F.faults files.old)
        (F.faults files.new) 0 (items_at key.rules (table_view top.now)))) }
    ensures same_files { F.told files.new ≡ F.told files.old }
    ensures faults_never_fall { F.faults files.old ≤ F.faults files.new }
{
    match array_at(top, RULE.name) {
        Some(values) => rules_of(alloc, files, values),
        None => Ok(LoadedRules::new(alloc)),
    }
}
