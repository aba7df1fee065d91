// A listener or a link is asked as often as it may be in one turn.

ghost use Rattle.std.specs.Prelude.{◌≡◌, ◌<◌, IfOk, vec_len, IfErr, ◌≤◌};
ghost use Rattle.px_outside.specs.declared.answers.ReadyAt.TheVariants as ready;
ghost use Rattle.serve_loop.specs.Asking.{AskedOnce};
ghost use Rattle.serve_loop.specs.Often.{Tried};
ghost use Rattle.serve_loop.specs.Part.{Part};
ghost use Rattle.serve_loop.specs.Broken.{AreAsks, IsBroken};
ghost use Rattle.serve_loop.specs.Faults.{FromNet, is_memory};

use crate::serving::Serving;
use crate::{Polled, ServeFault};
use core_events::EventCore;
use px_outside::Net;

impl<C: EventCore + Drop> Serving<C> {
    /// Asks a listener until it gives no more, 16 times at most. Says whether it stays due.
    #[tactic(auto, using(crate::proofs::Failing::from_later, crate::proofs::Failing::from_memory))]
    pub(crate) fn ask_listener<N: Net>(
        &mut self,
        net: &mut N,
        slot: u32,
    ) -> Result<bool, ServeFault>
        ensures part { IfOk result (λ stays. Part C.face N.did N.gave
            (Tried (AskedOnce C.face self.old.conns (ready.Listener slot)) 16 stays)
            self.old self.new net.old net.new) }
        ensures broke { IfErr result (λ why. IsBroken C.face N.did N.gave AreAsks (is_memory why)
            self.old self.new net.old net.new) }
        ensures fails { IfErr result (FromNet (N.faults net.old) (N.faults net.new)) }
        ensures faults_never_fall { N.faults net.old ≤ N.faults net.new }
    {
        for often in 0u32..16 {
            let _ = often;
            match self.accept(net, slot)? {
                Polled::Again => {}
                Polled::Stays => return Ok(true),
                Polled::Over => return Ok(false),
            }
        }
        Ok(true)
    }

    /// Asks a link until it gives no more, four times at most. Says whether it stays due.
    #[tactic(auto, using(crate::proofs::Failing::from_later, crate::proofs::Failing::from_memory))]
    pub(crate) fn ask_often<N: Net>(
        &mut self,
        net: &mut N,
        link: u32,
        room: &mut Vec<u8>,
    ) -> Result<bool, ServeFault>
        requires { 0 < vec_len room.old }
        ensures part { IfOk result (λ stays. Part C.face N.did N.gave
            (Tried (AskedOnce C.face self.old.conns (ready.Link link)) 4 stays)
            self.old self.new net.old net.new) }
        ensures room { vec_len room.new ≡ vec_len room.old }
        ensures broke { IfErr result (λ why. IsBroken C.face N.did N.gave AreAsks (is_memory why)
            self.old self.new net.old net.new) }
        ensures fails { IfErr result (FromNet (N.faults net.old) (N.faults net.new)) }
        ensures faults_never_fall { N.faults net.old ≤ N.faults net.new }
    {
        for often in 0u32..4 {
            let _ = often;
            match self.ask_link(net, link, room)? {
                Polled::Again => {}
                Polled::Stays => return Ok(true),
                Polled::Over => return Ok(false),
            }
        }
        Ok(true)
    }
}
