// The reader of monitors' files.

ghost use Rattle.std.specs.Prelude.{◌≡◌, ◌≤◌, IfOk, IfErr};
ghost use Rattle.toml.specs.View.{table_view};
ghost use Rattle.config.specs.Faults.{fault_at};
ghost use Rattle.config.specs.Loading.{CantRead, IsContents, OfFault};
ghost use Rattle.config.specs.Outcomes.{IsDocument};
ghost use Rattle.pool_monitor.specs.Made.{watch_of};
ghost use Rattle.pool_monitor.specs.Outcomes.{HoldsWatch, IsNone, Refuses};

use crate::board::Board;
use crate::document::document_fault;
use crate::made::{members_of, monitors_of};
use config::{ConfigError, ConfigFault, ConfigFaultKind, PoolSettings, Settings};
use px_bytes::{M, Text};
use px_outside::{Failed, Files};
use std::alloc::Global;
use toml::Table;

// A fault of the file.
fn file_fault(alloc: Global, kind: ConfigFaultKind, name: &[u8]) -> ConfigError
    ensures { OfFault (λ f. f ≡ fault_at kind name.now) result }
{
    match Text::new(alloc, name) {
        Ok(place) => ConfigError::Fault(ConfigFault {
            kind,
            place,
            spot: None,
        }),
        Err(_) => ConfigError::Memory,
    }
}

// The bytes of a file.
fn read_file<F: Files>(alloc: Global, files: &mut F, name: &[u8]) -> Result<Text, ConfigError>
    ensures contents { IfOk result (IsContents (F.told files.old) name.now) }
    ensures fault { IfErr result
        (OfFault (CantRead (F.faults files.old) (F.faults files.new) name.now)) }
    ensures same_files { F.told files.new ≡ F.told files.old }
    ensures faults_never_fall { F.faults files.old ≤ F.faults files.new }
{
    match files.read(alloc, name) {
        Ok(text) => Ok(text),
        Err(Failed::Failed) => Err(file_fault(alloc, ConfigFaultKind::ReadFault, name)),
        Err(Failed::Memory) => Err(ConfigError::Memory),
    }
}

// The table of a document's bytes.
fn read_table(alloc: Global, name: &[u8], bytes: &[u8]) -> Result<Table, ConfigError>
    ensures table { IfOk result (λ t. IsDocument bytes.now (table_view t)) }
    ensures refused { IfErr result (OfFault (IsNone name.now bytes.now)) }
{
    match toml::table_from_slice(alloc, bytes) {
        Ok(table) => Ok(table),
        Err(fault) => {
            if fault.is_memory() {
                return Err(ConfigError::Memory);
            }
            Err(file_fault(alloc, ConfigFaultKind::NotToml, name))
        }
    }
}

// The monitors of a document without faults.
fn board_of(alloc: Global, pools: &[PoolSettings], top: &Table) -> M<Board>
    ensures { IfOk result (λ board. board ≡ watch_of pools.now (table_view top.now)) }
{
    let monitors = monitors_of(alloc, top)?;
    let members = members_of(alloc, pools, monitors.as_slice())?;
    Board::new(alloc, monitors, members)
}

/// The monitors that a file has for the pools of a configuration, or what is wrong with it first. Of a
/// fault of its document the line isn't told.
pub fn read_monitors<F: Files>(
    alloc: Global,
    files: &mut F,
    name: &[u8],
    settings: &Settings,
) -> Result<Board, ConfigError>
    ensures board { IfOk result
        (HoldsWatch (F.told files.old) settings.now.pools name.now) }
    ensures refused { IfErr result (Refuses (F.told files.old) (F.faults files.old)
        (F.faults files.new) settings.now.pools name.now) }
    ensures same_files { F.told files.new ≡ F.told files.old }
    ensures faults_never_fall { F.faults files.old ≤ F.faults files.new }
{
    let held = read_file(alloc, files, name)?;
    let top = read_table(alloc, name, held.as_bytes())?;
    match document_fault(alloc, settings.pools.as_slice(), &top)? {
        Some(fault) => Err(ConfigError::Fault(fault)),
        None => Ok(board_of(alloc, settings.pools.as_slice(), &top)?),
    }
}
