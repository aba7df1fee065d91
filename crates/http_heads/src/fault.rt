// Why a head wasn't read.

ghost use Rattle.std.specs.Prelude.{◌≡◌};
ghost use Rattle.http_heads.specs.declared.fault.HeadFault.TheVariants as HeadFault;

use px_bytes::{HttpFault, Memory};

/// Why a head wasn't read.
#[derive(Clone, Copy, PartialEq, Eq)]
pub enum HeadFault {
    Fault(HttpFault),
    Memory,
}

impl From<Memory> for HeadFault {
    ghost from_gives = { λ m fault. fault ≡ HeadFault.Memory };

    fn from(_: Memory) -> HeadFault {
        HeadFault::Memory
    }
}
