// Test files and configurations are read.

ghost use Rattle.std.specs.Prelude.{◌≡◌, IfErr, IfOk};
ghost use Rattle.tested_runs.specs.Sources.{IsConfig, IsSource, Parsed, StopsBy, TellsNoFile};
ghost use Rattle.tested_runs.specs.Sources.{TellsSource, TellsText, faulty_line};

use crate::stop::TestStop;
use config::{ConfigError, ConfigFault, ConfigFaultKind, read_config};
use proxy::core_config;
use px_bytes::{M, Text};
use px_outside::{Failed, Files};
use run_config::Config;
use std::alloc::Global;
use test_text::{Stopped, TestFault, TestFile, fault_line, read_test_file};

/// The number of the fault of a configuration that can't be run today.
const NOT_BUILT: u8 = 9;

/// A test file that was read.
#[derive(Drop)]
pub struct TestSource {
    pub name: Text,
    pub text: Text,
    pub file: TestFile,
}

// The line that tells what is wrong with a test file.
fn faulty(alloc: Global, name: &[u8], text: &[u8], fault: TestFault) -> M<TestStop>
    ensures { IfOk result (λ stop. stop ≡ TestStop.File (faulty_line name.now text.now fault)) }
{
    let mut line = fault_line(alloc, name, text, fault)?;
    line.push(b"\n")?;
    Ok(TestStop::File(line))
}

// Why a text is no test file.
fn stop_of(alloc: Global, name: &[u8], text: &[u8], stopped: Stopped) -> TestStop
    ensures { StopsBy name.now text.now stopped result }
{
    match stopped {
        Stopped::Memory => TestStop::Memory,
        Stopped::Fault(fault) => match faulty(alloc, name, text, fault) {
            Ok(stop) => stop,
            Err(_) => TestStop::Memory,
        },
    }
}

fn parsed(alloc: Global, name: Text, text: Text) -> Result<TestSource, TestStop>
    ensures parsed { IfOk result (λ source. Parsed name text source) }
    ensures fault { IfErr result (TellsText name text) }
{
    match read_test_file(alloc, text.as_bytes()) {
        Ok(file) => Ok(TestSource { name, text, file }),
        Err(stopped) => {
            let stop = stop_of(alloc, name.as_bytes(), text.as_bytes(), stopped);
            drop(text);
            Err(stop)
        }
    }
}

/// The tests that a file holds.
pub fn read_source<F: Files>(
    alloc: Global,
    files: &mut F,
    name: &[u8],
) -> Result<TestSource, TestStop>
    ensures source { IfOk result (IsSource (F.told files.old) name.now) }
    ensures fault { IfErr result (TellsSource (F.told files.old) name.now) }
    ensures same_files { F.told files.new ≡ F.told files.old }
{
    let own = Text::new(alloc, name)?;
    match files.read(alloc, name) {
        Ok(text) => parsed(alloc, own, text),
        Err(Failed::Failed) => Err(TestStop::Read),
        Err(Failed::Memory) => Err(TestStop::Memory),
    }
}

// The line that tells why a configuration can't be run.
fn config_line(alloc: Global, number: u8, place: &[u8]) -> M<Text> {
    let head = format!(in alloc; "config fault {number} at ")?;
    let mut line = Text::new(alloc, head.as_bytes())?;
    line.push(place)?;
    line.push(b"\n")?;
    Ok(line)
}

// Why there is no configuration.
fn refused(alloc: Global, fault: &ConfigFault) -> TestStop
    ensures { TellsNoFile result }
{
    if matches!(fault.kind, ConfigFaultKind::ReadFault) {
        return TestStop::Read;
    }
    told(config_line(alloc, fault.kind.number(), fault.place.as_bytes()))
}

fn told(line: M<Text>) -> TestStop
    ensures { TellsNoFile result }
{
    match line {
        Ok(line) => TestStop::Config(line),
        Err(_) => TestStop::Memory,
    }
}

/// What the core runs for the configuration that a file holds.
pub fn config_of<F: Files>(alloc: Global, files: &mut F, name: &[u8]) -> Result<Config, TestStop>
    ensures config { IfOk result (IsConfig (F.told files.old) name.now) }
    ensures fault { IfErr result TellsNoFile }
    ensures same_files { F.told files.new ≡ F.told files.old }
{
    let loaded = match read_config(alloc, files, name) {
        Ok(loaded) => loaded,
        Err(ConfigError::Fault(fault)) => return Err(refused(alloc, &fault)),
        Err(ConfigError::Memory) => return Err(TestStop::Memory),
    };
    match core_config(alloc, loaded)? {
        Some(config) => Ok(config),
        None => Err(told(config_line(alloc, NOT_BUILT, b"config"))),
    }
}
