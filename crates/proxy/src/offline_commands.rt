// The commands that wait for nobody.

ghost use Rattle.std.specs.Prelude.{◌≡◌};
ghost use Rattle.config.specs.declared.fault.ConfigError.TheVariants.{Fault as Told};
ghost use Rattle.proxy.specs.Command.{named_of};
ghost use Rattle.proxy.specs.Complete.{Completes};
ghost use Rattle.proxy.specs.End.{end_of_read, status_of};
ghost use Rattle.proxy.specs.Offline.{ChecksFile, Offline, ReplaysFiles};
ghost use Rattle.proxy.specs.Report.{config_fault};
ghost use Rattle.proxy.specs.Says.{Refuses, Says, Tells};
ghost use Rattle.proxy.specs.declared.end.End.TheVariants.{Config};

use crate::command::{Command, ReplayFiles, command_of};
use crate::end::{End, Status};
use crate::explain_command::explain;
use crate::migrate_command::migrate;
use crate::mirror_command::mirror;
use crate::report::{config_fault_line, ok_line, usage_fault_line};
use crate::report_command::report;
use crate::run_schedule::replay;
use crate::runnable::core_config;
use crate::say::{is_read_fault, say};
use crate::second_text::{export, import};
use config::{ConfigError, ConfigFault, read_config};
use px_bytes::Texts;
use px_outside::{Failed, Files, Sink};
use std::alloc::Global;

/// The number of the fault of a configuration that can't be run today.
const NOT_BUILT: u8 = 9;

/// Runs the command that the words are, and gives its status.
pub fn offline<F: Files, K: Sink>(
    alloc: Global,
    words: &Texts,
    files: &mut F,
    out: &mut K,
) -> Status
    ensures { (end : End) × (result.0 ≡ status_of end)
        × Offline words.now (F.told files.old) (K.written out.old) (K.written out.new)
        (F.faults files.old) (F.faults files.new) (K.faults out.old) (K.faults out.new) end
        × Completes words.now (F.told files.old) (K.written out.old) (K.written out.new)
        (F.faults files.old) (F.faults files.new) (K.faults out.old) (K.faults out.new) end }
{
    run(alloc, words, files, out).status()
}

fn run<F: Files, K: Sink>(alloc: Global, words: &Texts, files: &mut F, out: &mut K) -> End
    ensures { Offline words.now (F.told files.old) (K.written out.old) (K.written out.new)
        (F.faults files.old) (F.faults files.new) (K.faults out.old) (K.faults out.new) result }
{
    match command_of(words) {
        Some(Command::Check(name)) => check(alloc, name, files, out),
        Some(Command::Explain(name)) => explain(alloc, name, files, out),
        Some(Command::Migrate(name)) => migrate(alloc, name, files, out),
        Some(Command::Import(name)) => import(alloc, name, files, out),
        Some(Command::Export(name)) => export(alloc, name, files, out),
        Some(Command::Report(name)) => report(alloc, name, files, out),
        Some(Command::Replay(named)) => replay_files(alloc, named, files, out),
        Some(Command::Mirror(named)) => mirror(alloc, named, files, out),
        None => End::Usage.unless(say(out, usage_fault_line())),
    }
}

// Says whether a configuration loads.
fn check<F: Files, K: Sink>(alloc: Global, name: &[u8], files: &mut F, out: &mut K) -> End
    ensures { ChecksFile name.now (F.told files.old) (K.written out.old) (K.written out.new)
        (F.faults files.old) (F.faults files.new) (K.faults out.old) (K.faults out.new) result }
{
    match read_config(alloc, files, name) {
        Ok(_loaded) => tell(End::Done, ok_line(), out),
        Err(why) => refuse(alloc, why, out),
    }
}

// Reads both files, and replays the schedule where the configuration loads and can be run.
fn replay_files<F: Files, K: Sink>(
    alloc: Global,
    named: ReplayFiles<'_>,
    files: &mut F,
    out: &mut K,
) -> End
    ensures { ReplaysFiles (named_of named.entry) (F.told files.old) (K.written out.old)
        (K.written out.new)
        (F.faults files.old) (F.faults files.new) (K.faults out.old) (K.faults out.new) result }
{
    let loaded = match read_config(alloc, files, named.config) {
        Ok(loaded) => loaded,
        Err(why) => return refuse(alloc, why, out),
    };
    let Ok(config) = core_config(alloc, loaded) else {
        return End::Memory;
    };
    let Some(config) = config else {
        return tell_fault(alloc, NOT_BUILT, b"config", out);
    };
    match files.read(alloc, named.schedule) {
        Ok(schedule) => replay(alloc, config, schedule.as_bytes(), out),
        Err(failed) => read_end(failed),
    }
}

/// Says why there is no configuration.
pub fn refuse<K: Sink>(alloc: Global, why: ConfigError, out: &mut K) -> End
    ensures { Refuses why (K.written out.old) (K.written out.new) (K.faults out.old)
        (K.faults out.new) result }
{
    match why {
        ConfigError::Fault(fault) => refuse_for(alloc, &fault, out),
        ConfigError::Memory => End::Memory,
    }
}

// Says what is wrong with a configuration that was read.
fn refuse_for<K: Sink>(alloc: Global, fault: &ConfigFault, out: &mut K) -> End
    ensures { Refuses (Told fault.now) (K.written out.old) (K.written out.new) (K.faults out.old)
        (K.faults out.new) result }
{
    if is_read_fault(fault.kind) {
        return End::ReadFault;
    }
    tell_fault(alloc, fault.kind.number(), fault.place.as_bytes(), out)
}

// Says what is wrong with a configuration, and ends so.
fn tell_fault<K: Sink>(alloc: Global, number: u8, place: &[u8], out: &mut K) -> End
    ensures { Tells (config_fault number place.now) Config (K.written out.old) (K.written out.new)
        (K.faults out.old) (K.faults out.new) result }
{
    End::Config.unless(say_config_fault(alloc, number, place, out))
}

/// Says a text, and ends so.
pub fn tell<K: Sink>(usual: End, text: &[u8], out: &mut K) -> End
    ensures { Tells text.now usual (K.written out.old) (K.written out.new) (K.faults out.old)
        (K.faults out.new) result }
{
    usual.unless(say(out, text))
}

fn say_config_fault<K: Sink>(
    alloc: Global,
    number: u8,
    place: &[u8],
    out: &mut K,
) -> Result<(), End>
    ensures { Says (config_fault number place.now) (K.written out.old) (K.written out.new)
        (K.faults out.old) (K.faults out.new) result }
{
    match config_fault_line(alloc, number, place) {
        Ok(line) => say(out, line.as_bytes()),
        Err(_) => Err(End::Memory),
    }
}

/// The end of a command whose file can't be read.
pub fn read_end(failed: Failed) -> End
    ensures { result ≡ end_of_read failed }
{
    match failed {
        Failed::Failed => End::ReadFault,
        Failed::Memory => End::Memory,
    }
}
