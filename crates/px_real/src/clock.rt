// The system's clock.

ghost use Rattle.std.specs.Prelude.{◌≡◌, ⊤};

use px_outside::Clock;
use std::time::{self, Instant};

/// Milliseconds since it was made.
#[derive(Drop)]
pub struct RealClock<R> {
    rt: R,
    start: Option<Instant>,
    last: u64,
    faults: u64,
}

impl<R: time::Clock + Drop> RealClock<R> {
    pub fn new(rt: R) -> RealClock<R>
        ensures last { result.last ≡ 0 }
        ensures faults { result.faults ≡ 0 }
    {
        let start = Instant::now(&rt).ok();
        RealClock {
            rt,
            start,
            last: 0,
            faults: 0,
        }
    }

    /// A second clock that counts from the same start.
    pub fn beside(&self, rt: R) -> RealClock<R>
        ensures start { result.start ≡ self.now.start }
        ensures last { result.last ≡ self.now.last }
        ensures faults { result.faults ≡ 0 }
    {
        RealClock {
            rt,
            start: self.start,
            last: self.last,
            faults: 0,
        }
    }
}

// None where the system's clock can't be read.
fn millis_since<R: time::Clock>(rt: &R, start: Option<Instant>) -> Option<u64> {
    let start = start?;
    let now = Instant::now(rt).ok()?;
    u64::try_from(now.duration_since(start).as_millis()).ok()
}

impl<R: time::Clock + Drop> Clock for RealClock<R> {
    ghost gave = { λ _ _ _. ⊤ };

    ghost faults = { λ c. c.faults };

    fn now(&mut self) -> u64 {
        match millis_since(&self.rt, self.start) {
            Some(moment) => self.last = moment,
            None => self.faults = self.faults.saturating_add(1),
        }
        self.last
    }
}
