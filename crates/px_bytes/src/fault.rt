// Faults of commands, and what a host says to one.

ghost use Rattle.std.specs.Prelude.{◌≡◌};

use crate::{Memory, Text, Texts};
use std::alloc::{AllocError, AllocFailed};

/// What kind of fault a command raised. The numbers are those that a report prints.
#[derive(Clone, Copy, PartialEq, Eq)]
pub enum FaultKind {
    NoVariable = 1,
    NoCommand = 2,
    Arity = 3,
    NotWhole = 4,
    OutOfRange = 5,
    DivideByZero = 6,
    TooLong = 7,
    TooDeep = 8,
    Budget = 9,
    Context = 10,
    Raised = 11,
    Syntax = 12,
    NoSuch = 13,
    TableFull = 14,
}

/// A fault that a script can catch, with the text that `catch` gives.
#[derive(Drop)]
pub struct TclFault {
    pub kind: FaultKind,
    pub text: Text,
}

/// Why there is no value: a fault, or want of memory.
#[derive(Drop)]
pub enum Raise {
    Fault(TclFault),
    Memory,
}

impl From<Memory> for Raise {
    ghost use Rattle.px_bytes.specs.declared.fault.Raise.TheVariants.{Memory as OutOfMemory};

    ghost from_gives = { λ _ e. e ≡ OutOfMemory };

    fn from(_: Memory) -> Self {
        Raise::Memory
    }
}

impl From<AllocError> for Raise {
    ghost use Rattle.px_bytes.specs.declared.fault.Raise.TheVariants.{Memory as OutOfMemory};

    ghost from_gives = { λ _ e. e ≡ OutOfMemory };

    fn from(_: AllocError) -> Self {
        Raise::Memory
    }
}

impl<T: Drop> From<AllocFailed<T>> for Raise {
    ghost use Rattle.px_bytes.specs.declared.fault.Raise.TheVariants.{Memory as OutOfMemory};

    ghost from_gives = { λ _ e. e ≡ OutOfMemory };

    fn from(_: AllocFailed<T>) -> Self {
        Raise::Memory
    }
}

/// The answer to a shared call.
#[derive(Drop)]
pub enum Reply {
    Ok(Text),
    Fault(TclFault),
}

/// What a host says to a command: a value, a fault, that it asks a shared call, or that memory was
/// refused.
#[derive(Drop)]
pub enum HostAnswer {
    Value(Text),
    Fault(TclFault),
    Ask(Texts),
    Memory,
}

/// Why an HTTP message can't be read. A head is too long where 65,536 bytes hold no end of it.
#[derive(Clone, Copy, PartialEq, Eq)]
pub enum HttpFault {
    BadHead,
    LongHead,
    Host,
    Framing,
    BadChunk,
    ShortBody,
    Switching,
    Method,
}
