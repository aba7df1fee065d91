// One event.

ghost use Rattle.std.specs.Prelude.{◌≡◌, ◌≤◌, ◌+◌, ◌-◌, ◌++◌, Some, None, OnOk, OnErr, IfErr, List};
ghost use Rattle.std.specs.Prelude.{length};
ghost use Rattle.core_events.specs.declared.note.Note.{Note};
ghost use Rattle.proxy_core.specs.Changes.{ChangesBy};
ghost use Rattle.proxy_core.specs.Refusal.{refusal, refusal_of};
ghost use Rattle.proxy_core.specs.Steps.{Steps, IsRefused};

use crate::core_state::Core;
use core_events::{BadEvent, Event, EventKind, Notes};
use frames::Moves;
use std::sync::ledger::Ledger;

impl Core {
    /// Takes an event and adds its notes. A refused event changes nothing, gives no note and counts
    /// no step. An accepted one gives 68 notes and counts 2,000 steps at most.
    pub fn step<S: Moves, L: Ledger>(
        &mut self,
        event: Event,
        steps: &mut px_bytes::Steps<L>,
        notes: &mut Notes,
    ) -> Result<(), BadEvent>
        requires { 68 ≤ notes.old.spare }
        ensures accepted { OnOk result (refusal self.old event ≡ None) }
        ensures refused { IfErr result (λ why. refusal self.old event ≡ Some why) }
        ensures steps { OnOk result
            (Steps self.old self.new event notes.old.items notes.new.items
            (steps.new - steps.old)) }
        ensures scheduled { IfErr result (λ why. IsRefused self.old event why) }
        ensures same { OnErr result ((self.new ≡ self.old) × (notes.new ≡ notes.old)) }
        ensures uncounted { OnErr result (steps.new ≡ steps.old) }
        ensures bounded { steps.new ≤ steps.old + 2000 }
    {
        let kind = event.kind();
        self.take::<S, L>(&kind, steps, notes)
    }

    // By what the event may mean.
    fn take<S: Moves, L: Ledger>(
        &mut self,
        kind: &EventKind,
        steps: &mut px_bytes::Steps<L>,
        notes: &mut Notes,
    ) -> Result<(), BadEvent>
        requires { 68 ≤ notes.old.spare }
        ensures accepted { OnOk result (refusal_of self.old kind.now ≡ None) }
        ensures refused { IfErr result (λ why. refusal_of self.old kind.now ≡ Some why) }
        ensures changes { OnOk result
            ((group : List Note) × (notes.new.items ≡ notes.old.items ++ group)
            × ChangesBy self.old self.new kind.now group (steps.new - steps.old)) }
        ensures same { OnErr result ((self.new ≡ self.old) × (notes.new ≡ notes.old)) }
        ensures few_notes { OnOk result (length notes.new.items ≤ length notes.old.items + 68) }
        ensures uncounted { OnErr result (steps.new ≡ steps.old) }
        ensures bounded { steps.new ≤ steps.old + 2000 }
    {
        match kind {
            EventKind::Accepts(number, vs, from) => {
                self.accept(*number, vs.as_bytes(), *from, notes)
            }
            EventKind::Comes(number, input) => self.comes(*number, input, notes),
            EventKind::Ticks(moment) => self.tick(*moment),
            EventKind::Turns => {
                self.turn(notes);
                Ok(())
            }
            EventKind::Runs => {
                self.run::<S, L>(steps, notes);
                Ok(())
            }
            EventKind::Marks(pool, member, up) => self.mark(pool.as_bytes(), *member, *up),
        }
    }
}
