// The operators that need whole numbers. Each is worked out exactly, in 128 bits.

ghost use Rattle.px_bytes.specs.Gives.{Gives};
ghost use Rattle.tcl_expr.specs.Operators.{operator_value_2};

use crate::Op2;
use crate::number::{numbers, printed};
use px_bytes::{Raise, Text};
use std::alloc::Global;

pub(crate) fn product(alloc: Global, x: &[u8], y: &[u8]) -> Result<Text, Raise>
    ensures { Gives result (operator_value_2 Op2.Mul x.now y.now) }
{
    let (a, b) = numbers(alloc, x, y)?;
    printed(alloc, i128::from(a) * i128::from(b))
}

pub(crate) fn sum(alloc: Global, x: &[u8], y: &[u8]) -> Result<Text, Raise>
    ensures { Gives result (operator_value_2 Op2.Add x.now y.now) }
{
    let (a, b) = numbers(alloc, x, y)?;
    printed(alloc, i128::from(a) + i128::from(b))
}

pub(crate) fn difference(alloc: Global, x: &[u8], y: &[u8]) -> Result<Text, Raise>
    ensures { Gives result (operator_value_2 Op2.Sub x.now y.now) }
{
    let (a, b) = numbers(alloc, x, y)?;
    printed(alloc, i128::from(a) - i128::from(b))
}

pub(crate) fn bit_and(alloc: Global, x: &[u8], y: &[u8]) -> Result<Text, Raise>
    ensures { Gives result (operator_value_2 Op2.BitAnd x.now y.now) }
{
    let (a, b) = numbers(alloc, x, y)?;
    printed(alloc, i128::from(a & b))
}

pub(crate) fn bit_xor(alloc: Global, x: &[u8], y: &[u8]) -> Result<Text, Raise>
    ensures { Gives result (operator_value_2 Op2.BitXor x.now y.now) }
{
    let (a, b) = numbers(alloc, x, y)?;
    printed(alloc, i128::from(a ^ b))
}

pub(crate) fn bit_or(alloc: Global, x: &[u8], y: &[u8]) -> Result<Text, Raise>
    ensures { Gives result (operator_value_2 Op2.BitOr x.now y.now) }
{
    let (a, b) = numbers(alloc, x, y)?;
    printed(alloc, i128::from(a | b))
}
