// Expressions that have their end at once.

ghost use Rattle.std.specs.Prelude.{IfOk, ◌+◌, ◌≡◌, ◌≤◌};
ghost use Rattle.tcl_trees.specs.TreeView.{node_view, operands_view};
ghost use Rattle.frames.specs.Counted.{Counts};
ghost use Rattle.frame_loops.specs.Quick.{all_flat, brief_code, is_brief, quick};
ghost use Rattle.frames.specs.Reads.{known_by};

use crate::node_parts::joints_of;
use crate::rows::{MOST_OPERATORS, Rowed, row_from};
use frames::{Reads, child_at, is_leaf, leaf_code};
use px_bytes::{M, Steps};
use rule_model::Code;
use std::sync::ledger::Ledger;
use tcl_expr::Joint;
use tcl_trees::Node;

/// The code that an expression ends with, where it does so at once: what has nothing inside, and a
/// row of few operators on such operands.
#[inline(always)]
pub fn quick<L: Ledger, K: Ledger>(
    reads: &Reads<'_>,
    node: &Node,
    steps: &mut Steps<L>,
    paid: &mut Steps<K>,
) -> M<Option<Code>>
    ensures did { let q = quick (known_by reads.now) (node_view node.now) in
        IfOk result (λ code. Counts q paid.old steps.old code paid.new steps.new) }
    ensures few { steps.new ≤ steps.old + 4 }
{
    if is_leaf(node) {
        let code = leaf_code(reads.alloc, reads.statics, reads.vars, node)?;
        return Ok(Some(code));
    }
    let (first, joints) = (child_at(node, 0), joints_of(node));
    if !is_brief(first, joints) {
        return Ok(None);
    }
    let code = brief_code(reads, first, joints, steps, paid)?;
    Ok(Some(code))
}

// Whether such a row is one: all its operators are applied in one move.
#[inline(always)]
fn is_brief(first: &Node, joints: &[(Joint, Node)]) -> bool
    ensures { result ≡ is_brief (node_view first.now) (operands_view joints.now) }
{
    if joints.is_empty() || MOST_OPERATORS < joints.len() || !is_leaf(first) {
        return false;
    }
    all_leafs(joints)
}

#[inline(always)]
fn all_leafs(joints: &[(Joint, Node)]) -> bool
    ensures { result ≡ all_flat (operands_view joints.now) }
{
    for (_, operand) in joints {
        if !is_leaf(operand) {
            return false;
        }
    }
    true
}

// What such a row ends with.
#[inline(always)]
fn brief_code<L: Ledger, K: Ledger>(
    reads: &Reads<'_>,
    first: &Node,
    joints: &[(Joint, Node)],
    steps: &mut Steps<L>,
    paid: &mut Steps<K>,
) -> M<Code>
    ensures did { let operands = operands_view joints.now in
        let c = brief_code (known_by reads.now) (node_view first.now) operands in
        IfOk result (λ code. Counts c paid.old steps.old code paid.new steps.new) }
    ensures few { steps.new ≤ steps.old + 4 }
{
    paid.tick();
    match leaf_code(reads.alloc, reads.statics, reads.vars, first)? {
        Code::Value(left) => match row_from(reads, joints, 0, left, steps, paid)? {
            Rowed::Done(code) => Ok(code),
            Rowed::Child { left, .. } | Rowed::Stays { left, .. } => Ok(Code::Value(left)),
        },
        code => Ok(code),
    }
}
