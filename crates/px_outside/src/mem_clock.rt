// A clock in memory.

ghost use Rattle.std.specs.Prelude.{◌≡◌, drop};
ghost use Rattle.px_outside.specs.MemClock.{ClockInMemory, Gives};

use crate::{Clock, Counts};
use std::marker::Model;

/// Gives its moments one by one, and the last one again when none is left; 0 where there was none.
#[derive(Drop)]
pub struct MemClock {
    moments: Counts,
    at: usize,
    last: u64,
}

impl Model for MemClock {
    ghost Value = { ClockInMemory };

    ghost view = { λ m. record { left = drop m.at m.moments; last = m.last } };
}

impl MemClock {
    pub fn new(moments: Counts) -> MemClock
        ensures { result ≡ record { left = moments; last = 0 } }
    {
        MemClock {
            moments,
            at: 0,
            last: 0,
        }
    }
}

impl Clock for MemClock {
    ghost gave = { Gives };

    ghost faults = { λ _. 0 };

    fn now(&mut self) -> u64 {
        let moments = self.moments.as_slice();
        if self.at < moments.len() {
            self.last = moments[self.at];
            self.at += 1;
        }
        self.last
    }
}
