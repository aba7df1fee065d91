// A replay of a schedule, line by line.

ghost use Rattle.std.specs.Prelude.{◌≡◌, ◌≤◌, ◌<◌, ◌+◌, ◌^◌, IfOk, OnOk, IfErr, Option, List};
ghost use Rattle.std.specs.Prelude.{[]};
ghost use Rattle.journal_text.specs.Notes.{note_lines};
ghost use Rattle.record_model.specs.Setup.{init_notes};
ghost use Rattle.run_config.specs.declared.config.Config.{Config};
ghost use Rattle.px_outside.specs.Outside.{Rose, told_more};
ghost use Rattle.proxy.specs.Written.{Stands};
ghost use Rattle.proxy.specs.Stops.{GoesOnWith, StopsAtStart, StopsWith};

use crate::taken::{Taken, add_took, took_by};
use frame_machine::Stepper;
use journal_text::{LineKind, write_notes};
use proxy_core::{BadEvent, Core, Event, Note, Notes};
use px_bytes::{Memory, Steps};
use px_outside::{Failed, Sink, write_all};
use run_config::Config;
use std::alloc::Global;
use std::sync::ledger::Ledger;

/// What a replay keeps from one line to the next.
#[derive(Drop)]
pub struct Replay {
    pub core: Core,
    /// The notes of the event that is being given.
    pub notes: Notes,
    /// What the sides of each connection took, in the order in which they were accepted.
    pub taken: Vec<Taken>,
    /// How many events were accepted.
    pub events: u64,
}

/// Why a replay stops before the schedule's end.
#[derive(Clone, Copy, PartialEq, Eq)]
pub enum Stop {
    /// The line spells no event.
    Text { line: u64, kind: LineKind },
    /// The event of the line is refused.
    Event { line: u64, why: BadEvent },
    WriteFault,
    Memory,
}

impl From<Memory> for Stop {
    ghost use Rattle.std.specs.Prelude.{◌≡◌};
    ghost use Rattle.proxy.specs.declared.replay.Stop.TheVariants.{Memory as OutOfMemory};

    ghost from_gives = { λ _ e. e ≡ OutOfMemory };

    fn from(_: Memory) -> Self {
        Stop::Memory
    }
}

impl From<Failed> for Stop {
    ghost use Rattle.std.specs.Prelude.{◌≡◌};
    ghost use Rattle.proxy.specs.Stops.{stop_of};

    ghost from_gives = { λ f e. e ≡ stop_of f };

    fn from(failed: Failed) -> Self {
        match failed {
            Failed::Failed => Stop::WriteFault,
            Failed::Memory => Stop::Memory,
        }
    }
}

impl Replay {
    /// A replay that was given no event, and the notes of the start, which are written.
    pub fn start<K: Sink>(alloc: Global, config: Config, out: &mut K) -> Result<Replay, Stop>
        ensures stands { IfOk result (λ replay. Stands config [] 0 replay.core replay.taken.items
            replay.events (K.written out.old) (K.written out.new)) }
        ensures no_event { IfOk result (λ replay. replay.events ≡ 0) }
        ensures stops { IfErr result (StopsAtStart config (K.written out.old) (K.written out.new)) }
        ensures failed_is_counted { IfErr result
            (λ why. why ≡ Stop.WriteFault → Rose (K.faults out.old) (K.faults out.new)) }
        ensures faults_never_fall { K.faults out.old ≤ K.faults out.new }
    {
        let (core, notes) = Core::new(alloc, config)?;
        match write_start(alloc, notes.as_slice(), out) {
            Ok(()) => Ok(Replay {
                core,
                notes,
                taken: Vec::new(alloc),
                events: 0,
            }),
            Err(why) => {
                drop(core);
                drop(notes);
                Err(why)
            }
        }
    }

    /// Gives the event of a line to the core, and writes its notes.
    pub fn event<K: Sink, L: Ledger>(
        &mut self,
        alloc: Global,
        line: u64,
        event: Event,
        steps: &mut Steps<L>,
        out: &mut K,
    ) -> Result<(), Stop>
        requires { self.old.events + 1 < 2 ^ 64 }
        ensures goes_on { OnOk result (GoesOnWith event self.old.core self.new.core
            self.old.taken.items self.new.taken.items self.old.events self.new.events
            (K.written out.old) (K.written out.new)) }
        ensures stops { IfErr result (StopsWith line event self.old.core self.new.core
            self.old.taken.items self.new.taken.items self.old.events self.new.events
            (K.written out.old) (K.written out.new)) }
        ensures failed_is_counted { IfErr result
            (λ why. why ≡ Stop.WriteFault → Rose (K.faults out.old) (K.faults out.new)) }
        ensures faults_never_fall { K.faults out.old ≤ K.faults out.new }
        ensures counts { self.new.events ≤ self.old.events + 1 }
    {
        self.notes.clear();
        self.notes.reserve(68)?;
        let took = took_by(&self.core, &event)?;
        if let Err(why) = self.core.step::<Stepper, L>(event, steps, &mut self.notes) {
            return Err(Stop::Event { line, why });
        }
        self.events += 1;
        write_all(out, write_notes(alloc, self.notes.as_slice())?.as_bytes())?;
        add_took(alloc, &mut self.taken, took)?;
        Ok(())
    }
}

// Writes the notes of the start.
fn write_start<K: Sink>(alloc: Global, notes: &[Note], out: &mut K) -> Result<(), Stop>
    ensures written { OnOk result
        (K.written out.new ≡ told_more (K.written out.old) (note_lines notes.now)) }
    ensures stops { IfErr result (λ why. (C : Config) → notes.now ≡ init_notes C
        → StopsAtStart C (K.written out.old) (K.written out.new) why) }
    ensures failed_is_counted { IfErr result
        (λ why. why ≡ Stop.WriteFault → Rose (K.faults out.old) (K.faults out.new)) }
    ensures faults_never_fall { K.faults out.old ≤ K.faults out.new }
{
    let lines = write_notes(alloc, notes)?;
    write_all(out, lines.as_bytes())?;
    Ok(())
}
