// A net whose calls are counted.

ghost use Rattle.std.specs.Prelude.{◌≡◌, ◌<◌, length};

use px_bytes::Addr;
use px_outside::{Accepted, ConnectAnswer, Failed, Net, ReadAnswer, ReadyList, WriteAnswer};

/// A net, and how many calls of some kinds were made on it. A count stays at its greatest number.
#[derive(Drop)]
pub struct Counted<N> {
    pub net: N,
    pub closes: u64,
    /// Answers to connects, reads and writes.
    pub asks: u64,
    pub connects: u64,
}

impl<N> Counted<N> {
    pub fn new(net: N) -> Counted<N> {
        Counted {
            net,
            closes: 0,
            asks: 0,
            connects: 0,
        }
    }
}

impl<N: Net> Net for Counted<N> {
    ghost did = { λ a call b. N.did a.net call b.net };

    ghost gave = { λ c n. N.gave c.net n };

    ghost alive = { λ c n. N.alive c.net n };

    ghost faults = { λ c. N.faults c.net };

    ghost link_faults = { λ c n. N.link_faults c.net n };

    fn listen(&mut self, slot: u32, at: Addr) -> Result<(), Failed> {
        self.net.listen(slot, at)
    }

    fn wait(&mut self, until: u64, out: &mut ReadyList) -> Result<(), Failed> {
        self.net.wait(until, out)
    }

    fn accept(&mut self, slot: u32) -> Result<Accepted, Failed> {
        self.net.accept(slot)
    }

    fn connect(&mut self, to: Addr) -> Result<u32, Failed> {
        self.connects = self.connects.saturating_add(1);
        self.net.connect(to)
    }

    fn connect_answer(&mut self, link: u32) -> ConnectAnswer {
        self.asks = self.asks.saturating_add(1);
        self.net.connect_answer(link)
    }

    fn read(&mut self, link: u32, room: &mut [u8]) -> ReadAnswer {
        self.asks = self.asks.saturating_add(1);
        self.net.read(link, room)
    }

    fn write(&mut self, link: u32, bytes: &[u8]) -> WriteAnswer {
        self.asks = self.asks.saturating_add(1);
        self.net.write(link, bytes)
    }

    fn finish(&mut self, link: u32) {
        self.net.finish(link);
    }

    fn close(&mut self, link: u32) {
        self.closes = self.closes.saturating_add(1);
        self.net.close(link);
    }
}
