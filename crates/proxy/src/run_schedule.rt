// A whole replay.

ghost use Rattle.std.specs.Prelude.{◌≡◌, ◌≤◌, ◌<◌};
ghost use Rattle.proxy.specs.Replayed.{Replayed, Finished};

use crate::end::End;
use crate::replay::{Replay, Stop};
use crate::report::{end_line, event_fault_line, text_fault_line};
use px_bytes::{M, Steps, Text};
use px_outside::Sink;
use run_config::Config;
use std::alloc::Global;
use std::marker::Brand;
use std::sync::ledger::{Blank, Ledger};

/// Gives the events of the schedule to a core of this configuration, and writes the report.
pub fn replay<K: Sink>(alloc: Global, config: Config, schedule: &[u8], out: &mut K) -> End
    ensures replayed { Replayed config schedule.now (K.written out.old) (K.written out.new)
        (K.faults out.old) (K.faults out.new) result }
    ensures faults_never_fall { K.faults out.old ≤ K.faults out.new }
{
    counted_replay::<K, Brand>(alloc, config, schedule, out, Blank::new(1))
}

// The same, by steps that this ledger counts.
fn counted_replay<K: Sink, L: Ledger>(
    alloc: Global,
    config: Config,
    schedule: &[u8],
    out: &mut K,
    blank: Blank,
) -> End
    requires name { blank.name ≡ L.name }
    requires parts { blank.parts ≡ L.parts }
    requires some { 0 < blank.parts }
    ensures replayed { Replayed config schedule.now (K.written out.old) (K.written out.new)
        (K.faults out.old) (K.faults out.new) result }
    ensures faults_never_fall { K.faults out.old ≤ K.faults out.new }
{
    let mut steps = Steps::<L>::new(blank);
    let mut replay = match Replay::start(alloc, config, out) {
        Ok(replay) => replay,
        Err(Stop::WriteFault) => return End::WriteFault,
        Err(_) => return End::Memory,
    };
    match replay.lines(alloc, schedule, &mut steps, out) {
        Ok(()) => {
            let last = end_line(alloc, replay.events);
            End::Done.unless(finish(replay, alloc, last, out))
        }
        Err(Stop::Text { line, kind }) => {
            let last = text_fault_line(alloc, line, kind);
            End::Schedule.unless(finish(replay, alloc, last, out))
        }
        Err(Stop::Event { line, why }) => {
            let last = event_fault_line(alloc, line, why);
            End::Schedule.unless(finish(replay, alloc, last, out))
        }
        Err(Stop::WriteFault) => {
            drop(replay);
            End::WriteFault
        }
        Err(Stop::Memory) => {
            drop(replay);
            End::Memory
        }
    }
}

// Writes the end of the report.
fn finish<K: Sink>(replay: Replay, alloc: Global, last: M<Text>, out: &mut K) -> Result<(), End>
    ensures finished { Finished replay last (K.written out.old) (K.written out.new)
        (K.faults out.old) (K.faults out.new) result }
    ensures faults_never_fall { K.faults out.old ≤ K.faults out.new }
{
    let Ok(last) = last else {
        drop(replay);
        return Err(End::Memory);
    };
    match replay.finish(alloc, &last, out) {
        Ok(()) => {
            drop(replay);
            Ok(())
        }
        Err(Stop::WriteFault) => {
            drop(replay);
            Err(End::WriteFault)
        }
        Err(_) => {
            drop(replay);
            Err(End::Memory)
        }
    }
}
