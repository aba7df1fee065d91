// What is served.

ghost use Rattle.std.specs.Prelude.{◌≡◌, OnOk, IfErr, ◌≤◌};
ghost use Rattle.serve_loop.specs.Part.{IsGiven};
ghost use Rattle.serve_loop.specs.Broken.{IsGivenSome};
ghost use Rattle.serve_loop.specs.Faults.{FromNet, is_memory};

use crate::carry::carry;
use crate::journal::Journal;
use crate::{Links, ServeFault};
use core_events::{Event, EventCore, Notes};
use px_outside::Net;
use std::alloc::Global;

/// A core, and the links that it is served by.
#[derive(Drop)]
pub struct Serving<C> {
    pub(crate) alloc: Global,
    pub(crate) core: C,
    /// How many connections may be accepted.
    pub(crate) conns: u32,
    pub(crate) links: Links,
    /// The notes of the event that is given.
    pub(crate) notes: Notes,
    pub(crate) journal: Journal,
}

impl<C: EventCore + Drop> Serving<C> {
    /// Gives an event to the core, and makes the calls that its notes ask for.
    #[tactic(auto, using(crate::proofs::Failing::from_later, crate::proofs::Failing::from_memory))]
    pub(crate) fn give<N: Net>(&mut self, net: &mut N, event: Event) -> Result<(), ServeFault>
        ensures gives { OnOk result
            (IsGiven C.face N.did N.gave event self.old self.new net.old net.new) }
        ensures broke { IfErr result (λ why. IsGivenSome C.face N.did N.gave (is_memory why) event
            self.old self.new net.old net.new) }
        ensures fails { IfErr result (FromNet (N.faults net.old) (N.faults net.new)) }
        ensures faults_never_fall { N.faults net.old ≤ N.faults net.new }
    {
        self.notes.clear();
        self.notes.reserve(68)?;
        self.journal.event(&event)?;
        self.core.step(event, &mut self.notes);
        let carried = carry(&mut self.links, net, self.notes.as_slice());
        self.journal.notes(self.notes.as_slice())?;
        carried
    }
}
