// The faults that operators raise, with their texts.

ghost use Rattle.std.specs.Prelude.{◌≡◌, ◌++◌, IfOk, codes};
ghost use Rattle.tcl_expr.specs.OperatorFaults.{not_truth, divide_by_zero};

use px_bytes::{FaultKind, M, TclFault, Text};
use std::alloc::Global;

/// An operand is no truth value.
pub(crate) fn not_truth(alloc: Global, operand: &[u8]) -> M<TclFault>
    ensures { IfOk result (λ f. f ≡ not_truth operand.now) }
{
    let text = quoted(alloc, b"expected boolean value but got \"", operand)?;
    Ok(TclFault {
        kind: FaultKind::NotWhole,
        text,
    })
}

/// A divisor is 0.
pub(crate) fn divide_by_zero(alloc: Global) -> M<TclFault>
    ensures { IfOk result (λ f. f ≡ divide_by_zero) }
{
    Ok(TclFault {
        kind: FaultKind::DivideByZero,
        text: Text::new(alloc, b"divide by zero")?,
    })
}

// What a fault says, and the operand with a quote behind it.
fn quoted(alloc: Global, before: &[u8], operand: &[u8]) -> M<Text>
    ensures { IfOk result (λ t. t ≡ before.now ++ operand.now ++ codes "\"") }
{
    let mut text = Text::new(alloc, before)?;
    text.push(operand)?;
    text.push(b"\"")?;
    Ok(text)
}
