// The connection that is ready for the longest time goes on.

ghost use Rattle.std.specs.Prelude.{◌≡◌, ◌≤◌, ◌+◌, ◌-◌, ◌++◌, List, length};
ghost use Rattle.proxy_core.specs.Changes.{RunsRing};
ghost use Rattle.core_events.specs.declared.note.Note.{Note};

use crate::core_state::Core;
use crate::ring::{note_sleep, put_behind};
use crate::setup::setup_at;
use core_events::Notes;
use frames::Moves;
use px_bytes::Steps;
use std::sync::ledger::Ledger;

impl Core {
    /// Takes the front of the ring and runs its connection, which goes to the back where there is
    /// more to do, and whose call waits behind all others where it made one, or sleeps first,
    /// which is noted. On an empty ring nothing happens.
    pub(crate) fn run<S: Moves, L: Ledger>(&mut self, steps: &mut Steps<L>, notes: &mut Notes)
        requires { 68 ≤ notes.old.spare }
        ensures runs { (group : List Note) × (notes.new.items ≡ notes.old.items ++ group)
            × RunsRing self.old self.new self.old.live.ring group (steps.new - steps.old) }
        ensures bounded { steps.new ≤ steps.old + 2000 }
        ensures few_notes { length notes.new.items ≤ length notes.old.items + 68 }
    {
        let Some(at) = self.live.pop_ready() else {
            return;
        };
        let setup = setup_at(&self.config, &self.statics, &self.places, self.live[at].vs);
        let number = self.live[at].number;
        let turn = self.live[at].run::<S, L>(self.alloc, &setup, steps, notes);
        note_sleep(number, self.moment, &turn, notes);
        if put_behind(
            &mut self.live,
            &mut self.queue,
            at,
            number,
            self.moment,
            turn,
        ) {
            drop(self.live.remove(at));
        }
    }
}
