// Why a line gives no event.

ghost use Rattle.std.specs.Prelude.{◌≡◌};

use px_bytes::Memory as NoMemory;
use std::alloc::AllocError;

/// Why a line gives no event. The numbers are those that a report prints.
#[derive(Clone, Copy, PartialEq, Eq)]
pub enum LineKind {
    /// It has more than `LONGEST_LINE` bytes.
    LongLine = 1,
    /// It is the last one, and doesn't end with LF.
    NoNewline = 2,
    /// No event has this first word, so many words, or such a name, address or state.
    NotEvent = 3,
    /// A number isn't one, or is too large.
    BadNumber = 4,
    /// Bytes aren't in hexadecimal.
    BadHex = 5,
    /// It begins with `>`, and is no note's.
    NotNote = 7,
    /// Memory was refused, which no report prints.
    Memory = 8,
}

impl From<NoMemory> for LineKind {
    ghost use Rattle.journal_text.specs.declared.line_kind.LineKind.TheVariants.{Memory};

    ghost from_gives = { λ _ e. e ≡ Memory };

    fn from(_: NoMemory) -> Self {
        LineKind::Memory
    }
}

impl From<AllocError> for LineKind {
    ghost use Rattle.journal_text.specs.declared.line_kind.LineKind.TheVariants.{Memory};

    ghost from_gives = { λ _ e. e ≡ Memory };

    fn from(_: AllocError) -> Self {
        LineKind::Memory
    }
}
