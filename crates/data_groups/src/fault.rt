// Why rows are no data group.

ghost use Rattle.std.specs.Prelude.{◌≡◌};

use px_bytes::Memory;

/// Rows are no group of a kind: the key of the row at this place isn't of the kind. Or memory was
/// refused.
#[derive(Clone, Copy, PartialEq, Eq)]
pub enum GroupFault {
    BadKey(usize),
    Memory,
}

impl From<Memory> for GroupFault {
    ghost use Rattle.data_groups.specs.declared.fault.GroupFault.TheVariants.{Memory as OutOfMemory};

    ghost from_gives = { λ _ e. e ≡ OutOfMemory };

    fn from(_: Memory) -> Self {
        GroupFault::Memory
    }
}
