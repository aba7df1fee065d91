// Texts that are configurations.

ghost use Rattle.std.specs.Prelude.{◌≡◌, ◌≤◌, IfErr, IfOk};
ghost use Rattle.toml.specs.View.{table_view};
ghost use Rattle.tmsh_text.specs.Imported.{Imports, Refuses};

use crate::fault::TmshFault;
use config::{ConfigError, table_config};
use px_outside::Files;
use std::alloc::Global;
use tmsh_read::table_of;
use toml::Table;

/// The table of a text whose table loads, or why there is none.
pub fn tmsh_table<F: Files>(alloc: Global, files: &mut F, text: &[u8]) -> Result<Table, TmshFault>
    ensures table { IfOk result (λ t. Imports (F.told files.old) text.now (table_view t)) }
    ensures refused { IfErr result (Refuses (F.told files.old) (F.faults files.old)
        (F.faults files.new) text.now) }
    ensures same_files { F.told files.new ≡ F.told files.old }
    ensures faults_never_fall { F.faults files.old ≤ F.faults files.new }
{
    let table = table_of(alloc, text)?;
    match table_config(alloc, files, &table) {
        Ok(_loaded) => Ok(table),
        Err(ConfigError::Fault(fault)) => Err(TmshFault::Config(fault)),
        Err(ConfigError::Memory) => Err(TmshFault::Memory),
    }
}
