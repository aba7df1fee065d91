// The moves of operators before an operand, and of `expr`.

ghost use Rattle.std.specs.Prelude.{IfOk, Ok, take, ◌≡◌, ◌+◌, ◌≤◌};
ghost use Rattle.tcl_trees.specs.TreeView.{node_view};
ghost use Rattle.frame_moves.specs.Prefixes.{applied_move, expr_move, operand_told};
ghost use Rattle.frame_moves.specs.Prefixes.{operators_move, prefixed_move, whole_next};
ghost use Rattle.frames.specs.Reads.{known_by};
ghost use Rattle.frames.specs.Stills.{Pays};

use frame_loops::quick;
use frames::{Frame, Next, Reads, alone, is_leaf, leaf_code};
use px_bytes::{M, Memory, Raise, Steps, Text};
use rule_model::Code;
use std::alloc::Global;
use std::sync::ledger::Ledger;
use tcl_expr::{Op1, apply1};
use tcl_trees::{Node, expression_result};

/// Operators before an operand begin.
pub(crate) fn begin_prefixed<L: Ledger, K: Ledger>(
    reads: &Reads<'_>,
    ops: &[Op1],
    operand: &Node,
    steps: &mut Steps<L>,
    paid: &mut Steps<K>,
) -> M<Next>
    ensures did { let m = prefixed_move (known_by reads.now) ops.now (node_view operand.now) in
        IfOk result (λ n. Pays m paid.old steps.old n paid.new steps.new) }
    ensures few { steps.new ≤ steps.old + 5 }
{
    paid.tick();
    if !is_leaf(operand) {
        return Ok(Next::child(Frame::Operand { left: ops.len() }));
    }
    let code = leaf_code(reads.alloc, reads.statics, reads.vars, operand)?;
    go_operand(reads.alloc, ops, ops.len(), code, steps, paid)
}

/// The operand has this code, and so many operators, the outermost, aren't applied yet.
pub(crate) fn go_operand<L: Ledger, K: Ledger>(
    alloc: Global,
    ops: &[Op1],
    left: usize,
    code: Code,
    steps: &mut Steps<L>,
    paid: &mut Steps<K>,
) -> M<Next>
    ensures did { let m = operand_told ops.now left code in
        IfOk result (λ n. Pays m paid.old steps.old n paid.new steps.new) }
    ensures few { steps.new ≤ steps.old + 5 }
{
    match code {
        Code::Value(value) => apply(alloc, first_of(ops, left), value, steps, paid),
        code => Ok(Next::stop(code)),
    }
}

fn first_of(ops: &[Op1], count: usize) -> &[Op1]
    ensures { result.now ≡ take count ops.now }
{
    if count < ops.len() {
        &ops[..count]
    } else {
        ops
    }
}

// The innermost of these operators is applied.
fn apply<L: Ledger, K: Ledger>(
    alloc: Global,
    ops: &[Op1],
    value: Text,
    steps: &mut Steps<L>,
    paid: &mut Steps<K>,
) -> M<Next>
    ensures did { let m = operators_move ops.now value in
        IfOk result (λ n. Pays m paid.old steps.old n paid.new steps.new) }
    ensures few { steps.new ≤ steps.old + 1 }
{
    let left = ops.len();
    let Some(op) = ops.get(left.saturating_sub(1)) else {
        return Ok(Next::stop(Code::Value(value)));
    };
    match apply1(alloc, *op, value.as_bytes(), steps) {
        Ok(value) => {
            paid.tick();
            Ok(applied(left, value))
        }
        Err(Raise::Fault(fault)) => {
            paid.add(left as u64);
            Ok(Next::stop(Code::Raised(fault)))
        }
        Err(Raise::Memory) => Err(Memory),
    }
}

// One operator fewer is left.
fn applied(left: usize, value: Text) -> Next
    ensures { result ≡ (applied_move left (Ok value)).next }
{
    if 1 < left {
        Next::back(Frame::Operand { left: left - 1 }, Code::Value(value))
    } else {
        Next::stop(Code::Value(value))
    }
}

/// `expr` begins.
pub(crate) fn begin_expr<L: Ledger, K: Ledger>(
    reads: &Reads<'_>,
    expression: &Node,
    steps: &mut Steps<L>,
    paid: &mut Steps<K>,
) -> M<Next>
    ensures did { let m = expr_move (known_by reads.now) (node_view expression.now) in
        IfOk result (λ n. Pays m paid.old steps.old n paid.new steps.new) }
    ensures few { steps.new ≤ steps.old + 5 }
{
    paid.tick();
    paid.add(alone(expression));
    match quick(reads, expression, steps, paid)? {
        Some(code) => go_whole(reads.alloc, code),
        None => Ok(Next::child(Frame::Whole)),
    }
}

/// The whole expression has this code.
pub(crate) fn go_whole(alloc: Global, code: Code) -> M<Next>
    ensures { IfOk result (λ n. n ≡ whole_next code) }
{
    match code {
        Code::Value(value) => {
            let value = expression_result(alloc, value)?;
            Ok(Next::stop(Code::Value(value)))
        }
        code => Ok(Next::stop(code)),
    }
}
