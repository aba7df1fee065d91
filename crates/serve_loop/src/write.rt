// What is pending is written.

ghost use Rattle.std.specs.Prelude.{◌≡◌, IfOk, IfErr, ◌≤◌};
ghost use Rattle.serve_loop.specs.Part.{Part};
ghost use Rattle.serve_loop.specs.Writing.{Wrote, WroteOnce, asked_of};
ghost use Rattle.serve_loop.specs.Broken.{AreAsks, IsBroken};
ghost use Rattle.serve_loop.specs.Faults.{FromNet, is_memory};

use crate::polled::write_to_event;
use crate::serving::Serving;
use crate::{Polled, ServeFault};
use core_events::EventCore;
use px_bytes::Side;
use px_outside::{Net, WriteAnswer};

impl<C: EventCore + Drop> Serving<C> {
    /// Writes what is pending to a side until its link takes no more by now, or nothing is pending.
    /// Says whether something may be pending still.
    #[tactic(auto, using(crate::proofs::Failing::from_later, crate::proofs::Failing::from_memory))]
    pub(crate) fn write<N: Net>(
        &mut self,
        net: &mut N,
        conn: u32,
        side: Side,
    ) -> Result<bool, ServeFault>
        ensures part { IfOk result (λ stays. Part C.face N.did N.gave
            (Wrote C.face self.old.conns conn side stays) self.old self.new net.old net.new) }
        ensures broke { IfErr result (λ why. IsBroken C.face N.did N.gave AreAsks (is_memory why)
            self.old self.new net.old net.new) }
        ensures fails { IfErr result (FromNet (N.faults net.old) (N.faults net.new)) }
        ensures faults_never_fall { N.faults net.old ≤ N.faults net.new }
    {
        let pending = self.core.front(conn, side).len();
        for often in 0..pending + 1 {
            let _ = often;
            match self.write_once(net, conn, side)? {
                Polled::Again => {}
                Polled::Stays => return Ok(true),
                Polled::Over => return Ok(false),
            }
        }
        Ok(true)
    }

    #[tactic(auto, using(crate::proofs::Failing::from_later, crate::proofs::Failing::from_memory))]
    fn write_once<N: Net>(
        &mut self,
        net: &mut N,
        conn: u32,
        side: Side,
    ) -> Result<Polled, ServeFault>
        ensures part { IfOk result (λ asked. Part C.face N.did N.gave
            (WroteOnce C.face self.old.conns conn side asked) self.old self.new net.old net.new) }
        ensures broke { IfErr result (λ why. IsBroken C.face N.did N.gave AreAsks (is_memory why)
            self.old self.new net.old net.new) }
        ensures fails { IfErr result (FromNet (N.faults net.old) (N.faults net.new)) }
        ensures faults_never_fall { N.faults net.old ≤ N.faults net.new }
    {
        let Some(link) = self.links.link(conn, side) else {
            return Ok(Polled::Over);
        };
        let bytes = self.core.front(conn, side);
        if bytes.is_empty() {
            return Ok(Polled::Over);
        }
        let answer = net.write(link, bytes);
        match write_to_event(conn, side, answer) {
            None => Ok(asked_of(answer)),
            Some(event) => {
                self.give(net, event)?;
                Ok(asked_of(answer))
            }
        }
    }
}

fn asked_of(answer: WriteAnswer) -> Polled
    ensures { result ≡ asked_of answer }
{
    match answer {
        WriteAnswer::Took(_) => Polled::Again,
        WriteAnswer::NotYet => Polled::Stays,
        WriteAnswer::Reset => Polled::Over,
    }
}
