// Faults of what is outside.

use px_bytes::{Memory, Seq};

/// Why nothing was read or written.
#[derive(Clone, Copy, PartialEq, Eq)]
pub enum Failed {
    /// The outside failed, and its count of faults rose.
    Failed,
    /// Memory was refused.
    Memory,
}

impl From<Memory> for Failed {
    ghost use Rattle.std.specs.Prelude.{◌≡◌};
    ghost use Rattle.px_outside.specs.declared.failed.Failed.TheVariants.{Memory as OutOfMemory};

    ghost from_gives = { λ _ f. f ≡ OutOfMemory };

    fn from(_: Memory) -> Self {
        Failed::Memory
    }
}

/// Numbers of calls, the first being 1.
pub type Counts = Seq<u64>;
