// The same is done with each number of a list.

ghost use Rattle.std.specs.Prelude.{◌≡◌, ◌<◌, IfOk, OnOk, length, vec_len, IfErr, ◌≤◌};
ghost use Rattle.serve_loop.specs.Often.{Each, OneOf};
ghost use Rattle.serve_loop.specs.Part.{Part};
ghost use Rattle.serve_loop.specs.Turn.{WorkAt, WritesAt, either};
ghost use Rattle.serve_loop.specs.Broken.{AreAsks, IsBroken};
ghost use Rattle.serve_loop.specs.Faults.{FromNet, is_memory};

use crate::poll::Poll;
use crate::serving::Serving;
use crate::{Numbers, ServeFault};
use core_events::EventCore;
use px_bytes::{Seq, Side};
use px_outside::Net;

impl<C: EventCore + Drop> Serving<C> {
    /// Does this with each number of a list, in order, and leaves those that stay.
    #[tactic(auto, using(crate::proofs::Failing::from_later, crate::proofs::Failing::from_memory))]
    pub(crate) fn each<N: Net>(
        &mut self,
        net: &mut N,
        work: Poll,
        order: &Numbers,
        room: &mut Vec<u8>,
        stay: &mut Seq<u32>,
    ) -> Result<(), ServeFault>
        requires { 0 < vec_len room.old }
        ensures part { OnOk result (Part C.face N.did N.gave
            (Each (WorkAt C.face work self.old.conns) order.now stay.new)
            self.old self.new net.old net.new) }
        ensures room { vec_len room.new ≡ vec_len room.old }
        ensures broke { IfErr result (λ why. IsBroken C.face N.did N.gave AreAsks (is_memory why)
            self.old self.new net.old net.new) }
        ensures fails { IfErr result (FromNet (N.faults net.old) (N.faults net.new)) }
        ensures faults_never_fall { N.faults net.old ≤ N.faults net.new }
    {
        stay.clear();
        for at in 0..order.len() {
            self.each_at(net, work, order, at, room, stay)?;
        }
        Ok(())
    }

    #[tactic(auto, using(crate::proofs::Failing::from_later, crate::proofs::Failing::from_memory))]
    fn each_at<N: Net>(
        &mut self,
        net: &mut N,
        work: Poll,
        order: &Numbers,
        at: usize,
        room: &mut Vec<u8>,
        stay: &mut Seq<u32>,
    ) -> Result<(), ServeFault>
        requires within { at < length order.now }
        requires some { 0 < vec_len room.old }
        ensures one { OnOk result (OneOf (λ number stays. Part C.face N.did N.gave
            (WorkAt C.face work self.old.conns number stays) self.old self.new net.old net.new)
            order.now at stay.old stay.new) }
        ensures room { vec_len room.new ≡ vec_len room.old }
        ensures broke { IfErr result (λ why. IsBroken C.face N.did N.gave AreAsks (is_memory why)
            self.old self.new net.old net.new) }
        ensures fails { IfErr result (FromNet (N.faults net.old) (N.faults net.new)) }
        ensures faults_never_fall { N.faults net.old ≤ N.faults net.new }
    {
        let number = order.number(at);
        if self.one(net, work, number, room)? {
            stay.push(number)?;
            return Ok(());
        }
        Ok(())
    }

    // Whether it stays.
    #[tactic(auto, using(crate::proofs::Failing::from_later, crate::proofs::Failing::from_memory))]
    fn one<N: Net>(
        &mut self,
        net: &mut N,
        work: Poll,
        number: u32,
        room: &mut Vec<u8>,
    ) -> Result<bool, ServeFault>
        requires { 0 < vec_len room.old }
        ensures part { IfOk result (λ stays. Part C.face N.did N.gave
            (WorkAt C.face work self.old.conns number stays) self.old self.new net.old net.new) }
        ensures room { vec_len room.new ≡ vec_len room.old }
        ensures broke { IfErr result (λ why. IsBroken C.face N.did N.gave AreAsks (is_memory why)
            self.old self.new net.old net.new) }
        ensures fails { IfErr result (FromNet (N.faults net.old) (N.faults net.new)) }
        ensures faults_never_fall { N.faults net.old ≤ N.faults net.new }
    {
        match work {
            Poll::Listener => self.ask_listener(net, number),
            Poll::Link => self.ask_often(net, number, room),
            Poll::Writer => self.write_both(net, number),
        }
    }

    #[tactic(auto, using(crate::proofs::Failing::from_later, crate::proofs::Failing::from_memory))]
    fn write_both<N: Net>(&mut self, net: &mut N, conn: u32) -> Result<bool, ServeFault>
        ensures part { IfOk result (λ stays. Part C.face N.did N.gave
            (WritesAt C.face self.old.conns conn stays) self.old self.new net.old net.new) }
        ensures broke { IfErr result (λ why. IsBroken C.face N.did N.gave AreAsks (is_memory why)
            self.old self.new net.old net.new) }
        ensures fails { IfErr result (FromNet (N.faults net.old) (N.faults net.new)) }
        ensures faults_never_fall { N.faults net.old ≤ N.faults net.new }
    {
        let client = self.write(net, conn, Side::Client)?;
        let server = self.write(net, conn, Side::Server)?;
        Ok(either(client, server))
    }
}

fn either(client: bool, server: bool) -> bool
    ensures { result ≡ either client server }
{
    client || server
}
