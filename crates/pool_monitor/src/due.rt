// When probes are due.

ghost use Rattle.std.specs.Prelude.{◌≡◌, ◌+◌};
ghost use Rattle.pool_monitor.specs.Pump.{is_due, is_up, next_of};
ghost use Rattle.pool_monitor.specs.Pump as spec;

use crate::probe::ProbedMember;

impl ProbedMember {
    /// Whether it is to be probed.
    pub(crate) fn is_due(&self, moment: u64) -> bool
        ensures { result ≡ is_due moment self.now }
    {
        match self.sent {
            None => true,
            Some(sent) => has_come(sent, self.interval, moment),
        }
    }

    /// Whether it is up.
    pub(crate) fn is_up(&self, moment: u64) -> bool
        ensures { result ≡ is_up moment self.now }
    {
        !has_come(self.good, self.timeout, moment)
    }

    /// The moment of the next probe.
    pub(crate) fn next(&self) -> u64
        ensures { result ≡ next_of self.now }
    {
        match self.sent {
            None => 0,
            Some(sent) => sent.saturating_add(self.interval),
        }
    }
}

// Whether so much time has passed since then.
fn has_come(since: u64, time: u64, moment: u64) -> bool
    ensures { result ≡ spec.has_come since time moment }
{
    match since.checked_add(time) {
        Some(end) => end <= moment,
        None => false,
    }
}
