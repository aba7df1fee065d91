// What is ready goes on.

ghost use Rattle.std.specs.Prelude.{◌≡◌, ℕ, Option, IfOk, OnOk, IfErr, ◌≤◌};
ghost use Rattle.serve_loop.specs.Part.{Part};
ghost use Rattle.serve_loop.specs.Running.{PairOnce, Ran, RunAndTurn, noted};
ghost use Rattle.serve_loop.specs.Broken.{AreAsks, IsBroken};
ghost use Rattle.serve_loop.specs.Faults.{FromNet, is_memory};

use crate::serving::Serving;
use crate::{Numbers, Polled, ServeFault};
use core_events::{Event, EventCore};
use px_bytes::M;
use px_outside::Net;

impl<C: EventCore + Drop> Serving<C> {
    /// Gives pairs of a Run and a Turn until nothing is ready, 2,048 at most. The connections that
    /// ran are added to the writers. Says whether something is ready still.
    #[tactic(auto, using(crate::proofs::Failing::from_later, crate::proofs::Failing::from_memory))]
    pub(crate) fn run_pairs<N: Net>(
        &mut self,
        net: &mut N,
        writers: &mut Numbers,
    ) -> Result<bool, ServeFault>
        ensures part { IfOk result (λ ready. Part C.face N.did N.gave
            (Ran C.face 2048 ready writers.old writers.new) self.old self.new net.old net.new) }
        ensures broke { IfErr result (λ why. IsBroken C.face N.did N.gave AreAsks (is_memory why)
            self.old self.new net.old net.new) }
        ensures fails { IfErr result (FromNet (N.faults net.old) (N.faults net.new)) }
        ensures faults_never_fall { N.faults net.old ≤ N.faults net.new }
    {
        for often in 0u32..2048 {
            let _ = often;
            match self.run_once(net, writers)? {
                Polled::Again => {}
                Polled::Stays => return Ok(true),
                Polled::Over => return Ok(false),
            }
        }
        Ok(true)
    }

    #[tactic(auto, using(crate::proofs::Failing::from_later, crate::proofs::Failing::from_memory))]
    fn run_once<N: Net>(&mut self, net: &mut N, writers: &mut Numbers) -> Result<Polled, ServeFault>
        ensures part { IfOk result (λ asked. Part C.face N.did N.gave
            (PairOnce C.face writers.old writers.new asked) self.old self.new net.old net.new) }
        ensures broke { IfErr result (λ why. IsBroken C.face N.did N.gave AreAsks (is_memory why)
            self.old self.new net.old net.new) }
        ensures fails { IfErr result (FromNet (N.faults net.old) (N.faults net.new)) }
        ensures faults_never_fall { N.faults net.old ≤ N.faults net.new }
    {
        if self.core.settled() {
            return Ok(Polled::Over);
        }
        self.note_ready(writers)?;
        self.pair(net)?;
        Ok(Polled::Again)
    }

    // Adds the connection that is ready to the writers.
    fn note_ready(&self, writers: &mut Numbers) -> M<()>
        ensures { OnOk result ((ready : Option ℕ) × C.face.ready self.now.core ready
            × (writers.new ≡ noted ready writers.old)) }
    {
        match self.core.ready() {
            Some(conn) => writers.add(conn),
            None => Ok(()),
        }
    }

    #[tactic(auto, using(crate::proofs::Failing::from_later, crate::proofs::Failing::from_memory))]
    fn pair<N: Net>(&mut self, net: &mut N) -> Result<(), ServeFault>
        ensures part { OnOk result (Part C.face N.did N.gave
            (RunAndTurn C.face) self.old self.new net.old net.new) }
        ensures broke { IfErr result (λ why. IsBroken C.face N.did N.gave AreAsks (is_memory why)
            self.old self.new net.old net.new) }
        ensures fails { IfErr result (FromNet (N.faults net.old) (N.faults net.new)) }
        ensures faults_never_fall { N.faults net.old ≤ N.faults net.new }
    {
        self.give(net, Event::Run)?;
        self.give(net, Event::Turn)?;
        Ok(())
    }
}
