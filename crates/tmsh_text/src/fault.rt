// Why a text isn't read, and why a configuration isn't printed.

ghost use Rattle.std.specs.Prelude.{◌≡◌};

use config::ConfigFault;
use px_bytes::Memory;
use tmsh_read::ReadFault;

/// Why a text is no configuration.
#[derive(Drop)]
pub enum TmshFault {
    /// The byte at this place begins no letter of UTF-8.
    NotUtf8(usize),
    /// With the token at this place, or the text's end there, no text of the grammar goes on.
    Form(usize),
    /// The text is one of the grammar, and its table has this fault.
    Config(ConfigFault),
    Memory,
}

impl From<ReadFault> for TmshFault {
    ghost use Rattle.tmsh_text.specs.Imported.{fault_of};

    ghost from_gives = { λ why e. e ≡ fault_of why };

    fn from(why: ReadFault) -> Self {
        match why {
            ReadFault::NotUtf8(at) => TmshFault::NotUtf8(at),
            ReadFault::Form(at) => TmshFault::Form(at),
            ReadFault::Memory => TmshFault::Memory,
        }
    }
}

/// Why a configuration isn't printed.
#[derive(Clone, Copy, PartialEq, Eq)]
pub enum PrintFault {
    /// The braces of the text of this rule don't close each other, or it ends on a backslash.
    Unbalanced(usize),
    /// The text of this rule is no UTF-8.
    NotUtf8(usize),
    Memory,
}

impl From<Memory> for PrintFault {
    ghost use Rattle.tmsh_text.specs.declared.fault.PrintFault.TheVariants.{Memory as OutOfMemory};

    ghost from_gives = { λ _ e. e ≡ OutOfMemory };

    fn from(_: Memory) -> Self {
        PrintFault::Memory
    }
}
