// A link is asked for the answer to its connect.

ghost use Rattle.std.specs.Prelude.{◌≡◌, IfOk, Some, true, IfErr, ◌≤◌};
ghost use Rattle.px_bytes.specs.declared.addr.Side.TheVariants.{Server};
ghost use Rattle.px_outside.specs.declared.answers.ReadyAt.TheVariants as ready;
ghost use Rattle.serve_loop.specs.Links.{owner_in};
ghost use Rattle.serve_loop.specs.Asking.{AskedOnce};
ghost use Rattle.core_events.specs.Face.{MayAnswer};
ghost use Rattle.serve_loop.specs.Part.{Part};
ghost use Rattle.serve_loop.specs.Broken.{AreAsks, IsBroken};
ghost use Rattle.serve_loop.specs.Faults.{FromNet, is_memory};

use crate::serving::Serving;
use crate::{LinkOwner, Polled, ServeFault};
use core_events::{Event, EventCore};
use px_outside::{ConnectAnswer, Net};

impl<C: EventCore + Drop> Serving<C> {
    /// Asks what became of a connect. The net has closed a link that is refused.
    #[tactic(auto, using(crate::proofs::Failing::from_later, crate::proofs::Failing::from_memory))]
    pub(crate) fn answer<N: Net>(
        &mut self,
        net: &mut N,
        link: u32,
        row: LinkOwner,
    ) -> Result<Polled, ServeFault>
        requires owned { owner_in self.old.links link ≡ Some row }
        requires server { row.side ≡ Server }
        requires waits { C.face.connecting self.old.core row.conn true }
        requires may { MayAnswer (C.face.takes self.old.core) row.conn }
        ensures part { IfOk result (λ asked. Part C.face N.did N.gave
            (AskedOnce C.face self.old.conns (ready.Link link) asked)
            self.old self.new net.old net.new) }
        ensures broke { IfErr result (λ why. IsBroken C.face N.did N.gave AreAsks (is_memory why)
            self.old self.new net.old net.new) }
        ensures fails { IfErr result (FromNet (N.faults net.old) (N.faults net.new)) }
        ensures faults_never_fall { N.faults net.old ≤ N.faults net.new }
    {
        match net.connect_answer(link) {
            ConnectAnswer::NotYet => Ok(Polled::Over),
            ConnectAnswer::Connected => {
                self.give(net, Event::Connected { conn: row.conn })?;
                Ok(Polled::Again)
            }
            ConnectAnswer::Refused => {
                self.links.close(link, row.conn, row.side);
                self.give(net, Event::Refused { conn: row.conn })?;
                Ok(Polled::Over)
            }
        }
    }
}
