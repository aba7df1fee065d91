// A link is asked for bytes.

ghost use Rattle.std.specs.Prelude.{◌≡◌, ◌<◌, ◌≤◌, IfOk, Some, length, vec_len, IfErr};
ghost use Rattle.px_outside.specs.declared.answers.ReadyAt.TheVariants as ready;
ghost use Rattle.serve_loop.specs.Links.{owner_in};
ghost use Rattle.serve_loop.specs.Asking.{AskedOnce, IsWanted, NotConnecting};
ghost use Rattle.serve_loop.specs.Part.{Part, stand};
ghost use Rattle.serve_loop.specs.Broken.{AreAsks, IsBroken};
ghost use Rattle.serve_loop.specs.Faults.{FromNet, is_memory};

use crate::polled::{asked_by, read_to_event};
use crate::serving::Serving;
use crate::{LinkOwner, Polled, ServeFault};
use core_events::EventCore;
use px_outside::Net;

impl<C: EventCore + Drop> Serving<C> {
    /// Reads from a link as much as is wanted, and no more than the room holds.
    #[tactic(auto, using(crate::proofs::Failing::from_later, crate::proofs::Failing::from_memory))]
    pub(crate) fn read<N: Net>(
        &mut self,
        net: &mut N,
        link: u32,
        row: LinkOwner,
        room: &mut Vec<u8>,
    ) -> Result<Polled, ServeFault>
        requires owned { owner_in self.old.links link ≡ Some row }
        requires waits { NotConnecting C.face (stand self.old) row.conn row.side }
        requires some { 0 < vec_len room.old }
        ensures part { IfOk result (λ asked. Part C.face N.did N.gave
            (AskedOnce C.face self.old.conns (ready.Link link) asked)
            self.old self.new net.old net.new) }
        ensures room { vec_len room.new ≡ vec_len room.old }
        ensures broke { IfErr result (λ why. IsBroken C.face N.did N.gave AreAsks (is_memory why)
            self.old self.new net.old net.new) }
        ensures fails { IfErr result (FromNet (N.faults net.old) (N.faults net.new)) }
        ensures faults_never_fall { N.faults net.old ≤ N.faults net.new }
    {
        let wanted = self.core.wants(row.conn, row.side);
        if wanted == 0 {
            return Ok(Polled::Stays);
        }
        let n = least(wanted, room.len());
        self.read_into(net, link, row, &mut room[..n])
    }

    #[tactic(auto, using(crate::proofs::Failing::from_later, crate::proofs::Failing::from_memory))]
    fn read_into<N: Net>(
        &mut self,
        net: &mut N,
        link: u32,
        row: LinkOwner,
        room: &mut [u8],
    ) -> Result<Polled, ServeFault>
        requires owned { owner_in self.old.links link ≡ Some row }
        requires some { 0 < length room.old }
        requires wanted { IsWanted C.face self.old.core row.conn row.side (length room.old) }
        ensures part { IfOk result (λ asked. Part C.face N.did N.gave
            (AskedOnce C.face self.old.conns (ready.Link link) asked)
            self.old self.new net.old net.new) }
        ensures broke { IfErr result (λ why. IsBroken C.face N.did N.gave AreAsks (is_memory why)
            self.old self.new net.old net.new) }
        ensures fails { IfErr result (FromNet (N.faults net.old) (N.faults net.new)) }
        ensures faults_never_fall { N.faults net.old ≤ N.faults net.new }
    {
        let answer = net.read(link, room);
        match read_to_event(self.alloc, row, answer, room)? {
            None => Ok(asked_by(answer)),
            Some(event) => {
                self.give(net, event)?;
                Ok(asked_by(answer))
            }
        }
    }
}

fn least(a: usize, b: usize) -> usize
    requires first { 0 < a }
    requires second { 0 < b }
    ensures some { 0 < result }
    ensures within_first { result ≤ a }
    ensures within_second { result ≤ b }
{
    if a < b { a } else { b }
}
