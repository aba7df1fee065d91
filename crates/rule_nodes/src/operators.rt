// Operators on values.

ghost use Rattle.std.specs.Prelude.{IfOk, Ok, length, ◌+◌, ◌≡◌, ◌≤◌};
ghost use Rattle.px_bytes.specs.Gives.{Gives};
ghost use Rattle.tcl_expr.specs.OperatorFaults.{not_truth};
ghost use Rattle.tcl_trees.specs.WholeResult.{whole_result};
ghost use Rattle.tcl_expr.specs.Truth.{truth};
ghost use Rattle.rule_model.specs.Expressions.{decided_by, decided_unless, joint_value};
ghost use Rattle.rule_model.specs.Expressions.{prefixed_value, truth_text};
ghost use Rattle.rule_nodes.specs.Operators.{joint_ticks, truth_read};

use px_bytes::{FaultKind, M, Raise, Steps, TclFault, Text};
use std::alloc::Global;
use std::sync::ledger::Ledger;
use tcl_expr::{Joint, Op1, apply1, apply2, read_truth};
use tcl_trees::expression_result;

/// The truth value of a text; a text that has none is a fault.
pub fn truth_of(alloc: Global, text: &[u8]) -> Result<bool, Raise>
    ensures { Gives result (truth_read text.now) }
{
    match read_truth(text) {
        Some(holds) => Ok(holds),
        None => Err(Raise::Fault(not_truth(alloc, text)?)),
    }
}

fn not_truth(alloc: Global, operand: &[u8]) -> M<TclFault>
    ensures { IfOk result (λ f. f ≡ not_truth operand.now) }
{
    let mut text = Text::new(alloc, b"expected boolean value but got \"")?;
    text.push(operand)?;
    text.push(b"\"")?;
    Ok(TclFault {
        kind: FaultKind::NotWhole,
        text,
    })
}

/// A truth value as a text.
pub fn truth_text(alloc: Global, holds: bool) -> M<Text>
    ensures { IfOk result (λ t. t ≡ truth_text holds) }
{
    Text::new(alloc, if holds { b"1" } else { b"0" })
}

/// The value of a row of operands where its left one decides it; none where the right one is to be
/// evaluated.
pub fn decide(alloc: Global, joint: Joint, left: &[u8]) -> Result<Option<Text>, Raise>
    ensures { Gives result (decided_by joint left.now) }
{
    match joint {
        Joint::Both(_) => Ok(None),
        Joint::And => decide_unless(alloc, true, left),
        Joint::Or => decide_unless(alloc, false, left),
    }
}

// The same where a left operand of this truth value lets the row go on.
fn decide_unless(alloc: Global, going: bool, left: &[u8]) -> Result<Option<Text>, Raise>
    ensures { Gives result (decided_unless going (truth left.now) left.now) }
{
    match read_truth(left) {
        None => Err(Raise::Fault(not_truth(alloc, left)?)),
        Some(holds) => {
            if holds == going {
                Ok(None)
            } else {
                Ok(Some(truth_text(alloc, holds)?))
            }
        }
    }
}

/// What two operands give.
pub fn joint_text<L: Ledger>(
    alloc: Global,
    joint: Joint,
    left: &[u8],
    right: &[u8],
    steps: &mut Steps<L>,
) -> Result<Text, Raise>
    ensures value { Gives result (joint_value joint left.now right.now) }
    ensures ticks { steps.new ≡ steps.old + joint_ticks joint }
{
    match joint {
        Joint::Both(op) => apply2(alloc, op, left, right, steps),
        Joint::And | Joint::Or => match read_truth(right) {
            Some(holds) => Ok(truth_text(alloc, holds)?),
            None => Err(Raise::Fault(not_truth(alloc, right)?)),
        },
    }
}

/// What operators before an operand give, the innermost first.
pub fn prefixed<L: Ledger>(
    alloc: Global,
    ops: &[Op1],
    value: Text,
    steps: &mut Steps<L>,
) -> Result<Text, Raise>
    ensures value { Gives result (prefixed_value ops.now value) }
    ensures ticks { steps.new ≤ steps.old + length ops.now }
{
    let mut value = value;
    let mut rest = ops;
    while let Some((op, front)) = rest.split_last() {
        value = apply1(alloc, *op, value.as_bytes(), steps)?;
        rest = front;
    }
    Ok(value)
}

/// The value of a whole expression as its result.
pub fn whole_text(alloc: Global, value: Text) -> Result<Text, Raise>
    ensures { Gives result (Ok (whole_result value)) }
{
    Ok(expression_result(alloc, value)?)
}
