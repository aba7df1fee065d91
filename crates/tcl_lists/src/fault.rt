// Why a text is no list.

ghost use Rattle.std.specs.Prelude.{◌≡◌};

use px_bytes::Memory;

/// Why a text is no list, with the place of its first bad element in bytes from 0; or want of
/// memory.
#[derive(Clone, Copy, PartialEq, Eq)]
pub enum ListFault {
    /// A brace stays open.
    OpenBrace(usize),
    /// A quote stays open.
    OpenQuote(usize),
    /// A byte other than white space stands right behind a closing brace or quote.
    Extra(usize),
    Memory,
}

impl From<Memory> for ListFault {
    ghost use Rattle.tcl_lists.specs.declared.fault.ListFault.TheVariants.{Memory as OutOfMemory};

    ghost from_gives = { λ _ e. e ≡ OutOfMemory };

    fn from(_: Memory) -> Self {
        ListFault::Memory
    }
}
