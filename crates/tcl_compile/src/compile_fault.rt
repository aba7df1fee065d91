// Why a script became no tree.

ghost use Rattle.std.specs.Prelude.{◌≡◌};

use px_bytes::Memory;
use tcl_trees::Flaw;

/// Why no tree was given: the script's flaw, or out of memory.
#[derive(Clone, Copy, PartialEq, Eq)]
pub enum CompileFault {
    Flaw(Flaw),
    Memory,
}

impl From<Memory> for CompileFault {
    ghost use Rattle.tcl_compile.specs.declared.compile_fault.CompileFault.TheVariants.{Memory as OutOfMemory};

    ghost from_gives = { λ _ e. e ≡ OutOfMemory };

    fn from(_: Memory) -> Self {
        CompileFault::Memory
    }
}
