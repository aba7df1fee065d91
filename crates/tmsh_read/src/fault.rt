// Why a text has no table.

use px_bytes::Memory;

/// Why a text isn't read.
#[derive(Clone, Copy, PartialEq, Eq)]
pub enum ReadFault {
    /// The byte at this place begins no letter of UTF-8.
    NotUtf8(usize),
    /// With the token at this place, or the text's end there, no text of the grammar goes on.
    Form(usize),
    Memory,
}

impl From<Memory> for ReadFault {
    ghost use Rattle.std.specs.Prelude.{◌≡◌};
    ghost use Rattle.tmsh_read.specs.declared.fault.ReadFault.TheVariants.{Memory as OutOfMemory};

    ghost from_gives = { λ _ e. e ≡ OutOfMemory };

    fn from(_: Memory) -> Self {
        ReadFault::Memory
    }
}
