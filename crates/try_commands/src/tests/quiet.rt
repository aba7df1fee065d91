// A client that comes in a long wait is accepted at the moment behind it.

ghost use Rattle.std.specs.Prelude.{⊤};
ghost use Rattle.px_outside.specs.MemNet.{Does, IsAliveLink, IsGiven, faults_of};

use super::Shown;
use super::made::Made;
use super::served::{ANSWERS, net};
use super::wanted::Wanted;
use proxy::{Status, serve_command};
use px_bytes::{Addr, M};
use px_outside::{
    Accepted, Clock, ConnectAnswer, Failed, MemNet, Net, ReadAnswer, ReadyList, WriteAnswer,
};
use std::alloc::Global;
use std::cell::Cell;

/// How long each wait lasts: ten minutes.
const QUIET: u64 = 600_000;

/// What stands in front: the moment behind the first wait, in which the client came.
const BEHIND_THE_WAIT: Wanted = Wanted::Begins(b"tick 600000\naccept 1 v ");

/// A net in memory in whose waits time goes by.
#[derive(Drop)]
struct QuietNet<'a> {
    net: MemNet,
    moment: &'a Cell<u64>,
}

#[derive(Drop)]
struct QuietClock<'a> {
    moment: &'a Cell<u64>,
}

impl Clock for QuietClock<'_> {
    ghost gave = { λ _ _ _. ⊤ };

    ghost faults = { λ _. 0 };

    fn now(&mut self) -> u64 {
        self.moment.get()
    }
}

impl Net for QuietNet<'_> {
    ghost did = { λ n call m. Does n.net call m.net };

    ghost gave = { λ n link. IsGiven n.net link };

    ghost alive = { λ n link. IsAliveLink n.net link };

    ghost faults = { λ n. n.net.faults };

    ghost link_faults = { λ n link. faults_of n.net link };

    fn listen(&mut self, slot: u32, at: Addr) -> Result<(), Failed> {
        self.net.listen(slot, at)
    }

    fn wait(&mut self, until: u64, out: &mut ReadyList) -> Result<(), Failed> {
        self.moment.set(self.moment.get().saturating_add(QUIET));
        self.net.wait(until, out)
    }

    fn accept(&mut self, slot: u32) -> Result<Accepted, Failed> {
        self.net.accept(slot)
    }

    fn connect(&mut self, to: Addr) -> Result<u32, Failed> {
        self.net.connect(to)
    }

    fn connect_answer(&mut self, link: u32) -> ConnectAnswer {
        self.net.connect_answer(link)
    }

    fn read(&mut self, link: u32, room: &mut [u8]) -> ReadAnswer {
        self.net.read(link, room)
    }

    fn write(&mut self, link: u32, bytes: &[u8]) -> WriteAnswer {
        self.net.write(link, bytes)
    }

    fn finish(&mut self, link: u32) {
        self.net.finish(link)
    }

    fn close(&mut self, link: u32) {
        self.net.close(link)
    }
}

#[test]
fn a_client_comes_at_the_moment_behind_the_wait(rt: HostRuntime) -> Shown {
    match comes_behind_the_wait(rt.alloc()) {
        Ok(true) => Ok(()),
        _ => Err("a client that comes in a wait is dated back"),
    }
}

fn comes_behind_the_wait(alloc: Global) -> M<bool> {
    let moment = Cell::new(0);
    let mut made = Made::new(alloc, ANSWERS.words, b"", ANSWERS.fails)?;
    let mut net = QuietNet {
        net: net(alloc, &ANSWERS)?,
        moment: &moment,
    };
    let mut clock = QuietClock { moment: &moment };
    let status = serve_command(
        alloc,
        &made.words,
        &mut made.files,
        &mut net,
        &mut clock,
        &mut made.sink,
    );
    Ok(status == Status(0) && BEHIND_THE_WAIT.is_met_by(made.written()))
}
