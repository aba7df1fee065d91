// Why a text is no expression.

ghost use Rattle.std.specs.Prelude.{◌≡◌};

use px_bytes::Memory;
use std::alloc::{AllocError, AllocFailed};

/// What is wrong with the text of an expression: the place with which no expression goes on, or the
/// opener that is one too many.
#[derive(Clone, Copy, PartialEq, Eq)]
pub enum Misread {
    Syntax(usize),
    TooDeep(usize),
}

/// Why no expression was given: the text's fault, or want of memory.
#[derive(Clone, Copy, PartialEq, Eq)]
pub enum ExprFault {
    Fault(Misread),
    Memory,
}

impl From<Memory> for ExprFault {
    ghost use Rattle.tcl_expr.specs.declared.expr_fault.ExprFault.TheVariants.{Memory as OutOfMemory};

    ghost from_gives = { λ _ e. e ≡ OutOfMemory };

    fn from(_: Memory) -> Self {
        ExprFault::Memory
    }
}

impl From<AllocError> for ExprFault {
    ghost use Rattle.tcl_expr.specs.declared.expr_fault.ExprFault.TheVariants.{Memory as OutOfMemory};

    ghost from_gives = { λ _ e. e ≡ OutOfMemory };

    fn from(_: AllocError) -> Self {
        ExprFault::Memory
    }
}

impl<T: Drop> From<AllocFailed<T>> for ExprFault {
    ghost use Rattle.tcl_expr.specs.declared.expr_fault.ExprFault.TheVariants.{Memory as OutOfMemory};

    ghost from_gives = { λ _ e. e ≡ OutOfMemory };

    fn from(_: AllocFailed<T>) -> Self {
        ExprFault::Memory
    }
}
