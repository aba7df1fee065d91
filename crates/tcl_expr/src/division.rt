// Division and shifts, which round down.

ghost use Rattle.std.specs.Prelude.{◌≡◌, ◌≢◌, pos};
ghost use Rattle.px_bytes.specs.Gives.{Gives};
ghost use Rattle.tcl_expr.specs.Operators.{operator_value_2, quotient, remainder};

use crate::Op2;
use crate::number::{count, numbers, printed};
use crate::operator_fault::divide_by_zero;
use px_bytes::{Raise, Text};
use std::alloc::Global;

pub(crate) fn quotient(alloc: Global, x: &[u8], y: &[u8]) -> Result<Text, Raise>
    ensures { Gives result (operator_value_2 Op2.Div x.now y.now) }
{
    let (a, b) = numbers(alloc, x, y)?;
    if b == 0 {
        return Err(Raise::Fault(divide_by_zero(alloc)?));
    }
    printed(alloc, rounded_down(a, b))
}

pub(crate) fn remainder(alloc: Global, x: &[u8], y: &[u8]) -> Result<Text, Raise>
    ensures { Gives result (operator_value_2 Op2.Mod x.now y.now) }
{
    let (a, b) = numbers(alloc, x, y)?;
    if b == 0 {
        return Err(Raise::Fault(divide_by_zero(alloc)?));
    }
    printed(alloc, what_is_left(a, b))
}

// By a negative divisor both signs are turned.
fn rounded_down(a: i64, b: i64) -> i128
    requires { b ≢ pos 0 }
    ensures { result ≡ quotient a b }
{
    let (a, b) = (i128::from(a), i128::from(b));
    if b < 0 {
        (-a).div_euclid(-b)
    } else {
        a.div_euclid(b)
    }
}

fn what_is_left(a: i64, b: i64) -> i128
    requires { b ≢ pos 0 }
    ensures { result ≡ remainder a b }
{
    let (a, b) = (i128::from(a), i128::from(b));
    if b < 0 {
        -(-a).rem_euclid(-b)
    } else {
        a.rem_euclid(b)
    }
}

pub(crate) fn shifted_left(alloc: Global, x: &[u8], y: &[u8]) -> Result<Text, Raise>
    ensures { Gives result (operator_value_2 Op2.Shl x.now y.now) }
{
    let (a, b) = numbers(alloc, x, y)?;
    let count = count(alloc, b)?;
    printed(alloc, i128::from(a) * i128::from(1u64 << count))
}

pub(crate) fn shifted_right(alloc: Global, x: &[u8], y: &[u8]) -> Result<Text, Raise>
    ensures { Gives result (operator_value_2 Op2.Shr x.now y.now) }
{
    let (a, b) = numbers(alloc, x, y)?;
    let count = count(alloc, b)?;
    printed(alloc, i128::from(a >> count))
}
