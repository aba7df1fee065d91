// Documents in the newest version.

ghost use Rattle.std.specs.Prelude.{◌≡◌, ◌≤◌, Err, IfErr, IfOk, OnOk};
ghost use Rattle.toml.specs.View.{table_view};
ghost use Rattle.config.specs.Migrated as spec;
ghost use Rattle.config.specs.Migrated.{IsMigrated};
ghost use Rattle.config.specs.Outcomes.{Answers};

use crate::fault::ConfigError;
use crate::keys::VERSION;
use crate::reader::{of_document, read_table};
use crate::rule_text::read_file;
use px_bytes::M;
use px_outside::Files;
use std::alloc::Global;
use toml::{Table, Value};

/// The version that has all keys.
const NEWEST: i64 = 2;

fn set_version(alloc: Global, top: &mut Table) -> M<()>
    ensures { OnOk result (table_view top.new ≡ spec.migrated (table_view top.old)) }
{
    let key = String::from_str(alloc, VERSION.name)?;
    top.insert(key, Value::Integer(NEWEST))?;
    Ok(())
}

/// The table of a configuration file that loads, in version 2, or what is wrong with the file first.
pub fn migrated<F: Files>(alloc: Global, files: &mut F, name: &[u8]) -> Result<Table, ConfigError>
    ensures table { IfOk result (λ t. IsMigrated (F.told files.old) name.now (table_view t)) }
    ensures refused { IfErr result (λ why. Answers (F.told files.old) (F.faults files.old)
        (F.faults files.new) name.now (Err why)) }
    ensures same_files { F.told files.new ≡ F.told files.old }
    ensures faults_never_fall { F.faults files.old ≤ F.faults files.new }
{
    let held = read_file(alloc, files, name)?;
    let bytes = held.as_bytes();
    let mut top = read_table(alloc, name, bytes)?;
    match of_document(alloc, files, bytes, &top) {
        Ok(_loaded) => {
            set_version(alloc, &mut top)?;
            Ok(top)
        }
        Err(why) => Err(why),
    }
}
