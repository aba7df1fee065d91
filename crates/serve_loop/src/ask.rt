// Listeners and links are asked.

ghost use Rattle.std.specs.Prelude.{◌≡◌, ◌<◌, ◌≤◌, IfOk, Some, vec_len, IfErr};
ghost use Rattle.px_bytes.specs.declared.addr.Addr.{Addr};
ghost use Rattle.core_events.specs.declared.event.Event.TheVariants as event;
ghost use Rattle.px_outside.specs.declared.answers.ReadyAt.TheVariants as ready;
ghost use Rattle.serve_loop.specs.Asking.{AskedOnce};
ghost use Rattle.serve_loop.specs.Part.{Part};
ghost use Rattle.serve_loop.specs.Broken.{AreAsks, IsBroken};
ghost use Rattle.serve_loop.specs.Faults.{FromNet, is_memory};

use crate::serving::Serving;
use crate::{Polled, ServeFault};
use core_events::{Event, EventCore};
use px_bytes::{M, Side, Text};
use px_outside::{Accepted, Net};

impl<C: EventCore + Drop> Serving<C> {
    /// Asks a listener for a connection, if one may be accepted.
    #[tactic(auto, using(crate::proofs::Failing::from_later, crate::proofs::Failing::from_memory))]
    pub(crate) fn accept<N: Net>(&mut self, net: &mut N, slot: u32) -> Result<Polled, ServeFault>
        ensures part { IfOk result (λ asked. Part C.face N.did N.gave
            (AskedOnce C.face self.old.conns (ready.Listener slot) asked)
            self.old self.new net.old net.new) }
        ensures broke { IfErr result (λ why. IsBroken C.face N.did N.gave AreAsks (is_memory why)
            self.old self.new net.old net.new) }
        ensures fails { IfErr result (FromNet (N.faults net.old) (N.faults net.new)) }
        ensures faults_never_fall { N.faults net.old ≤ N.faults net.new }
    {
        let Some(number) = self.core.next() else {
            return Ok(Polled::Stays);
        };
        if number > self.conns {
            return Ok(Polled::Stays);
        }
        match self.name(slot)? {
            None => Ok(Polled::Over),
            Some(vs) => self.accept_as(net, slot, number, vs),
        }
    }

    // Asks a listener for this connection.
    #[tactic(auto, using(crate::proofs::Failing::from_later, crate::proofs::Failing::from_memory))]
    fn accept_as<N: Net>(
        &mut self,
        net: &mut N,
        slot: u32,
        number: u32,
        vs: Text,
    ) -> Result<Polled, ServeFault>
        requires next { C.face.next self.old.core (Some number) }
        requires within { number ≤ self.old.conns }
        requires named { C.face.name self.old.core slot (Some vs) }
        requires may { (from : Addr) → C.face.takes self.old.core (event.Accept number vs from) }
        ensures part { IfOk result (λ asked. Part C.face N.did N.gave
            (AskedOnce C.face self.old.conns (ready.Listener slot) asked)
            self.old self.new net.old net.new) }
        ensures broke { IfErr result (λ why. IsBroken C.face N.did N.gave AreAsks (is_memory why)
            self.old self.new net.old net.new) }
        ensures fails { IfErr result (FromNet (N.faults net.old) (N.faults net.new)) }
        ensures faults_never_fall { N.faults net.old ≤ N.faults net.new }
    {
        match net.accept(slot)? {
            Accepted::NotYet => Ok(Polled::Over),
            Accepted::One { link, from } => {
                self.links.open(link, number, Side::Client)?;
                self.give(
                    net,
                    Event::Accept {
                        conn: number,
                        vs,
                        from,
                    },
                )?;
                Ok(Polled::Again)
            }
        }
    }

    // The name of the virtual server of a slot.
    fn name(&self, slot: u32) -> M<Option<Text>>
        ensures { IfOk result (λ name. C.face.name self.now.core slot name) }
    {
        match self.core.name(slot) {
            Some(name) => Ok(Some(Text::new(self.alloc, name)?)),
            None => Ok(None),
        }
    }

    /// Asks a link for the answer to its connect, or for bytes, if any are wanted.
    #[tactic(auto, using(crate::proofs::Failing::from_later, crate::proofs::Failing::from_memory))]
    pub(crate) fn ask_link<N: Net>(
        &mut self,
        net: &mut N,
        link: u32,
        room: &mut Vec<u8>,
    ) -> Result<Polled, ServeFault>
        requires { 0 < vec_len room.old }
        ensures part { IfOk result (λ asked. Part C.face N.did N.gave
            (AskedOnce C.face self.old.conns (ready.Link link) asked)
            self.old self.new net.old net.new) }
        ensures room { vec_len room.new ≡ vec_len room.old }
        ensures broke { IfErr result (λ why. IsBroken C.face N.did N.gave AreAsks (is_memory why)
            self.old self.new net.old net.new) }
        ensures fails { IfErr result (FromNet (N.faults net.old) (N.faults net.new)) }
        ensures faults_never_fall { N.faults net.old ≤ N.faults net.new }
    {
        let Some(row) = self.links.owner(link) else {
            return Ok(Polled::Over);
        };
        match row.side {
            Side::Client => self.read(net, link, row, room),
            Side::Server => {
                if self.core.connecting(row.conn) {
                    self.answer(net, link, row)
                } else {
                    self.read(net, link, row, room)
                }
            }
        }
    }
}
