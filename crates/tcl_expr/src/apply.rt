// What operators give.

ghost use Rattle.std.specs.Prelude.{◌≡◌, ◌+◌};
ghost use Rattle.px_bytes.specs.Gives.{Gives};
ghost use Rattle.tcl_expr.specs.Operators.{operator_value_1, operator_value_2, opposite_by};

use crate::arithmetic::{bit_and, bit_or, bit_xor, difference, product, sum};
use crate::comparison::{contains, order};
use crate::division::{quotient, remainder, shifted_left, shifted_right};
use crate::number::{printed, tested};
use crate::operator_fault::not_truth;
use crate::{Op1, Op2, read_truth};
use px_bytes::{Raise, Steps, Text, glob, number};
use std::alloc::Global;
use std::sync::ledger::Ledger;

/// The value of an operator with one operand, or its fault. No value is longer than 20 bytes.
pub fn apply1<L: Ledger>(
    alloc: Global,
    op: Op1,
    x: &[u8],
    steps: &mut Steps<L>,
) -> Result<Text, Raise>
    ensures value { Gives result (operator_value_1 op x.now) }
    ensures ticks_once { steps.new ≡ steps.old + 1 }
{
    steps.tick();
    match op {
        Op1::Plus => printed(alloc, i128::from(number(alloc, x)?)),
        Op1::Neg => printed(alloc, -i128::from(number(alloc, x)?)),
        Op1::BitNot => printed(alloc, i128::from(!number(alloc, x)?)),
        Op1::Not => opposite(alloc, x),
    }
}

fn opposite(alloc: Global, x: &[u8]) -> Result<Text, Raise>
    ensures { Gives result (operator_value_1 Op1.Not x.now) }
{
    match read_truth(x) {
        Some(holds) => tested(alloc, !holds),
        None => Err(Raise::Fault(not_truth(alloc, x)?)),
    }
}

/// The value of an operator with two operands, or its fault. No value is longer than 20 bytes.
pub fn apply2<L: Ledger>(
    alloc: Global,
    op: Op2,
    x: &[u8],
    y: &[u8],
    steps: &mut Steps<L>,
) -> Result<Text, Raise>
    ensures value { Gives result (operator_value_2 op x.now y.now) }
    ensures ticks_once { steps.new ≡ steps.old + 1 }
{
    steps.tick();
    match op {
        Op2::Mul => product(alloc, x, y),
        Op2::Div => quotient(alloc, x, y),
        Op2::Mod => remainder(alloc, x, y),
        Op2::Add => sum(alloc, x, y),
        Op2::Sub => difference(alloc, x, y),
        Op2::Shl => shifted_left(alloc, x, y),
        Op2::Shr => shifted_right(alloc, x, y),
        Op2::Less => tested(alloc, order(x, y).is_lt()),
        Op2::Greater => tested(alloc, order(x, y).is_gt()),
        Op2::AtMost => tested(alloc, order(x, y).is_le()),
        Op2::AtLeast => tested(alloc, order(x, y).is_ge()),
        Op2::NumEq => tested(alloc, order(x, y).is_eq()),
        Op2::NumNe => tested(alloc, order(x, y).is_ne()),
        Op2::TextEq => tested(alloc, x == y),
        Op2::TextNe => tested(alloc, x != y),
        Op2::Contains => tested(alloc, contains(x, y)),
        Op2::StartsWith => tested(alloc, x.starts_with(y)),
        Op2::EndsWith => tested(alloc, x.ends_with(y)),
        Op2::MatchesGlob => tested(alloc, glob(y, x)),
        Op2::BitAnd => bit_and(alloc, x, y),
        Op2::BitXor => bit_xor(alloc, x, y),
        Op2::BitOr => bit_or(alloc, x, y),
    }
}
