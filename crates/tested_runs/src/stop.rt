// Why tests aren't run.

use px_bytes::{Memory, Text};

/// Why tests aren't run.
#[derive(Drop)]
pub enum TestStop {
    /// A file can't be read.
    Read,
    /// The report can't be written.
    Write,
    /// A configuration doesn't load, or can't be run: this says why.
    Config(Text),
    /// A file is no test file: this says why.
    File(Text),
    /// Memory was refused.
    Memory,
}

impl From<Memory> for TestStop {
    ghost use Rattle.std.specs.Prelude.{◌≡◌};
    ghost use Rattle.tested_runs.specs.declared.stop.TestStop.TheVariants.{Memory as OutOfMemory};

    ghost from_gives = { λ _ stop. stop ≡ OutOfMemory };

    fn from(_: Memory) -> Self {
        TestStop::Memory
    }
}
