// Operands and results that are whole numbers.

ghost use Rattle.std.specs.Prelude.{◌≡◌, Ok};
ghost use Rattle.px_bytes.specs.Gives.{Gives};
ghost use Rattle.tcl_expr.specs.Operators.{with_numbers, count_of, printed, tested};

use px_bytes::{Raise, TclFault, Text, number, print_whole};
use std::alloc::Global;

/// The whole numbers that two operands are.
pub(crate) fn numbers(alloc: Global, x: &[u8], y: &[u8]) -> Result<(i64, i64), Raise>
    ensures { Gives result (with_numbers x.now y.now (λ a b. Ok (a, b))) }
{
    let a = number(alloc, x)?;
    let b = number(alloc, y)?;
    Ok((a, b))
}

/// The count of a shift.
pub(crate) fn count(alloc: Global, b: i64) -> Result<u32, Raise>
    ensures { Gives result (count_of b) }
{
    match u32::try_from(b) {
        Ok(count) if count < 64 => Ok(count),
        _ => Err(Raise::Fault(TclFault::out_of_range(alloc)?)),
    }
}

/// The exact result of an operator as a text, where it is in range.
pub(crate) fn printed(alloc: Global, exact: i128) -> Result<Text, Raise>
    ensures { Gives result (printed exact) }
{
    match i64::try_from(exact) {
        Ok(number) => Ok(print_whole(alloc, number)?),
        Err(_) => Err(Raise::Fault(TclFault::out_of_range(alloc)?)),
    }
}

/// The result of a test as a text.
pub(crate) fn tested(alloc: Global, holds: bool) -> Result<Text, Raise>
    ensures { Gives result (tested holds) }
{
    let text = if holds { b"1" } else { b"0" };
    Ok(Text::new(alloc, text)?)
}
