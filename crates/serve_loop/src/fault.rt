// How serving ends.

ghost use Rattle.std.specs.Prelude.{◌≡◌};
ghost use Rattle.serve_loop.specs.Faults.{turn_end};

use px_bytes::Memory;
use px_outside::Failed;

/// Why serving ends as it was asked to.
#[derive(Clone, Copy, PartialEq, Eq)]
pub enum ServeEnd {
    /// So many connections were accepted, and all are over.
    Conns,
    /// So many turns were made.
    Turns,
}

/// Why serving stops.
#[derive(Clone, Copy, PartialEq, Eq)]
pub enum ServeFault {
    /// The net failed.
    Net,
    /// A write of the journal failed.
    Write,
    /// Memory was refused.
    Memory,
}

/// How a turn ends, by the end of what it did and that of the writing of its lines: want of memory
/// goes first, then a fault of the journal.
pub fn turn_end(
    done: Result<(), ServeFault>,
    written: Result<(), ServeFault>,
) -> Result<(), ServeFault>
    ensures { result ≡ turn_end done written }
{
    match done {
        Err(ServeFault::Memory) => done,
        Err(ServeFault::Net) => written.and(done),
        Err(ServeFault::Write) => written.and(done),
        Ok(()) => written,
    }
}

impl From<Memory> for ServeFault {
    ghost use Rattle.std.specs.Prelude.{◌≡◌};
    ghost use Rattle.serve_loop.specs.declared.fault.ServeFault.TheVariants.{Memory as OutOfMemory};

    ghost from_gives = { λ _ f. f ≡ OutOfMemory };

    fn from(_: Memory) -> Self {
        ServeFault::Memory
    }
}

impl From<Failed> for ServeFault {
    ghost use Rattle.std.specs.Prelude.{◌≡◌};
    ghost use Rattle.serve_loop.specs.Faults.{fault_of};

    ghost from_gives = { λ failed f. f ≡ fault_of failed };

    fn from(failed: Failed) -> Self {
        match failed {
            Failed::Failed => ServeFault::Net,
            Failed::Memory => ServeFault::Memory,
        }
    }
}
