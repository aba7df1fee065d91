// The moves of a row of operators.

ghost use Rattle.std.specs.Prelude.{IfOk, drop, ◌+◌, ◌≤◌};
ghost use Rattle.tcl_trees.specs.TreeView.{node_view, operands_view};
ghost use Rattle.frames.specs.Counted.{Counts};
ghost use Rattle.frames.specs.Reads.{known_by};
ghost use Rattle.frame_loops.specs.Rows.{joined_to, left_told, most_operators, rest_move};
ghost use Rattle.frame_loops.specs.Rows.{right_joined, right_told, row_from, row_move};
ghost use Rattle.frames.specs.Stills.{Pays};

use frames::{Frame, Next, Reads, is_leaf, leaf_code};
use px_bytes::{M, Memory, Raise, Steps, Text};
use rule_model::Code;
use rule_nodes::{decide, joint_text};
use std::sync::ledger::Ledger;
use tcl_expr::Joint;
use tcl_trees::Node;

/// As many operators as one move may apply.
pub(crate) const MOST_OPERATORS: usize = 4;

/// How far a move came along a row.
#[derive(Drop)]
pub(crate) enum Rowed {
    /// What the row ends with.
    Done(Code),
    /// The right operand of this number runs first.
    Child { at: usize, joint: Joint, left: Text },
    /// The value before the operator of this number, which waits for the next move.
    Stays { at: usize, left: Text },
}

/// What comes of one operator.
#[derive(Drop)]
pub(crate) enum Joined {
    /// The value with its right operand.
    Goes(Text),
    /// The move comes no farther.
    Ends(Rowed),
}

/// A row begins.
#[inline(always)]
pub fn begin_row<L: Ledger, K: Ledger>(
    reads: &Reads<'_>,
    first: &Node,
    rest: &[(Joint, Node)],
    steps: &mut Steps<L>,
    paid: &mut Steps<K>,
) -> M<Next>
    ensures did { let operands = operands_view rest.now in
        let m = row_move (known_by reads.now) (node_view first.now) operands in
        IfOk result (λ n. Pays m paid.old steps.old n paid.new steps.new) }
    ensures few { steps.new ≤ steps.old + 5 }
{
    paid.tick();
    if !is_leaf(first) {
        return Ok(Next::child(Frame::Left { at: 0 }));
    }
    let code = leaf_code(reads.alloc, reads.statics, reads.vars, first)?;
    go_left(reads, rest, 0, code, steps, paid)
}

/// A row goes on behind the operand up to which it has a value.
#[inline(always)]
pub fn go_left<L: Ledger, K: Ledger>(
    reads: &Reads<'_>,
    joints: &[(Joint, Node)],
    at: usize,
    code: Code,
    steps: &mut Steps<L>,
    paid: &mut Steps<K>,
) -> M<Next>
    ensures did { let m = left_told (known_by reads.now) at (operands_view joints.now) code in
        IfOk result (λ n. Pays m paid.old steps.old n paid.new steps.new) }
    ensures few { steps.new ≤ steps.old + 5 }
{
    match code {
        Code::Value(left) => rest_of(reads, joints, at, left, steps, paid),
        code => Ok(Next::stop(code)),
    }
}

/// A row goes on behind a right operand.
#[tactic(auto, using(crate::proofs::InRows::joint_once))]
pub fn go_right<L: Ledger, K: Ledger>(
    reads: &Reads<'_>,
    joints: &[(Joint, Node)],
    at: usize,
    joint: Joint,
    left: &Text,
    code: Code,
    steps: &mut Steps<L>,
    paid: &mut Steps<K>,
) -> M<Next>
    ensures did { let operands = operands_view joints.now in
        let m = right_told (known_by reads.now) at operands joint left.now code in
        IfOk result (λ n. Pays m paid.old steps.old n paid.new steps.new) }
    ensures few { steps.new ≤ steps.old + 5 }
{
    match code {
        Code::Value(right) => {
            match joint_text(reads.alloc, joint, left.as_bytes(), right.as_bytes(), steps) {
                Ok(left) => rest_of(reads, joints, at, left, steps, paid),
                Err(Raise::Fault(fault)) => Ok(Next::stop(Code::Raised(fault))),
                Err(Raise::Memory) => Err(Memory),
            }
        }
        code => Ok(Next::stop(code)),
    }
}

// The row from its value before the operator of this number on.
#[inline(always)]
fn rest_of<L: Ledger, K: Ledger>(
    reads: &Reads<'_>,
    joints: &[(Joint, Node)],
    at: usize,
    left: Text,
    steps: &mut Steps<L>,
    paid: &mut Steps<K>,
) -> M<Next>
    ensures did { let m = rest_move (known_by reads.now) at (operands_view joints.now) left in
        IfOk result (λ n. Pays m paid.old steps.old n paid.new steps.new) }
    ensures few { steps.new ≤ steps.old + 4 }
{
    match row_from(reads, joints, at, left, steps, paid)? {
        Rowed::Done(code) => Ok(Next::stop(code)),
        Rowed::Child { at, joint, left } => Ok(Next::child(Frame::Right { at, joint, left })),
        Rowed::Stays { at, left } => Ok(Next::back(Frame::Left { at }, Code::Value(left))),
    }
}

/// As far along a row as one move may go, from its value before the operator of this number.
#[inline(always)]
pub(crate) fn row_from<L: Ledger, K: Ledger>(
    reads: &Reads<'_>,
    joints: &[(Joint, Node)],
    first: usize,
    left: Text,
    steps: &mut Steps<L>,
    paid: &mut Steps<K>,
) -> M<Rowed>
    ensures did { let all = drop first (operands_view joints.now) in
        let c = row_from (known_by reads.now) most_operators first all left in
        IfOk result (λ r. Counts c paid.old steps.old r paid.new steps.new) }
    ensures few { steps.new ≤ steps.old + 4 }
{
    let mut left = left;
    for at in first..joints.len() {
        if at - first == MOST_OPERATORS {
            return Ok(Rowed::Stays { at, left });
        }
        let (joint, operand) = &joints[at];
        match join(reads, at + 1, *joint, operand, left, steps, paid)? {
            Joined::Goes(value) => left = value,
            Joined::Ends(rowed) => return Ok(rowed),
        }
    }
    Ok(Rowed::Done(Code::Value(left)))
}

// One operator, and its right operand, which has this number.
#[inline(always)]
fn join<L: Ledger, K: Ledger>(
    reads: &Reads<'_>,
    at: usize,
    joint: Joint,
    operand: &Node,
    left: Text,
    steps: &mut Steps<L>,
    paid: &mut Steps<K>,
) -> M<Joined>
    ensures did { let c = joined_to (known_by reads.now) at joint (node_view operand.now) left in
        IfOk result (λ j. Counts c paid.old steps.old j paid.new steps.new) }
    ensures few { steps.new ≤ steps.old + 1 }
{
    paid.tick();
    match decide(reads.alloc, joint, left.as_bytes()) {
        Ok(None) => {
            paid.tick();
            join_right(reads, at, joint, operand, left, steps, paid)
        }
        Ok(Some(value)) => Ok(Joined::Ends(Rowed::Done(Code::Value(value)))),
        Err(Raise::Fault(fault)) => Ok(Joined::Ends(Rowed::Done(Code::Raised(fault)))),
        Err(Raise::Memory) => Err(Memory),
    }
}

#[tactic(auto, using(crate::proofs::InRows::joint_once))]
#[inline(always)]
fn join_right<L: Ledger, K: Ledger>(
    reads: &Reads<'_>,
    at: usize,
    joint: Joint,
    operand: &Node,
    left: Text,
    steps: &mut Steps<L>,
    paid: &mut Steps<K>,
) -> M<Joined>
    ensures did { let c = right_joined (known_by reads.now) at joint (node_view operand.now) left in
        IfOk result (λ j. Counts c paid.old steps.old j paid.new steps.new) }
    ensures few { steps.new ≤ steps.old + 1 }
{
    if !is_leaf(operand) {
        return Ok(Joined::Ends(Rowed::Child { at, joint, left }));
    }
    match leaf_code(reads.alloc, reads.statics, reads.vars, operand)? {
        Code::Value(right) => {
            match joint_text(reads.alloc, joint, left.as_bytes(), right.as_bytes(), steps) {
                Ok(value) => Ok(Joined::Goes(value)),
                Err(Raise::Fault(fault)) => Ok(Joined::Ends(Rowed::Done(Code::Raised(fault)))),
                Err(Raise::Memory) => Err(Memory),
            }
        }
        code => Ok(Joined::Ends(Rowed::Done(code))),
    }
}
