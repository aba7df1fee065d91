// What a node has, where its kind has it.

ghost use Rattle.std.specs.Prelude.{[], ◌≡◌};
ghost use Rattle.tcl_trees.specs.TreeView.{node_view, operands_view};
ghost use Rattle.tcl_trees.specs.declared.node.Node.{out-Node};
ghost use Rattle.frame_loops.specs.Branches.{choices_of};
ghost use Rattle.frame_loops.specs.ChoiceParts.{choices_view};
ghost use Rattle.frames.specs.Frames.{operators_of};
ghost use Rattle.frame_loops.specs.LoopParts.{parts_view};
ghost use Rattle.frame_loops.specs.NodeParts.{choices_in, joints_in, operators_in, parts_of};
ghost use Rattle.frame_loops.specs.Rows.{row_of};

use crate::branches::Choices;
use crate::loops::Loop;
use frames::child_at;
use tcl_expr::{Joint, Op1};
use tcl_trees::Node;

/// The operators before an operand.
#[tactic(auto, using(crate::proofs::PartViews::operators_view))]
#[inline(always)]
pub fn operators_of(node: &Node) -> &[Op1]
    ensures { result.now ≡ operators_of (node_view node.now) }
{
    operators_here(node)
}

#[inline(always)]
fn operators_here(node: &Node) -> &[Op1]
    ensures { result.now ≡ operators_in (out-Node node.now) }
{
    match node {
        Node::Prefixed(ops, _) => ops,
        _ => &[],
    }
}

/// The operands of a row behind the first.
#[tactic(auto, using(crate::proofs::PartViews::joints_view))]
#[inline(always)]
pub fn joints_of(node: &Node) -> &[(Joint, Node)]
    ensures { operands_view result.now ≡ row_of (node_view node.now) }
{
    joints_here(node)
}

#[inline(always)]
fn joints_here(node: &Node) -> &[(Joint, Node)]
    ensures { result.now ≡ joints_in (out-Node node.now) }
{
    match node {
        Node::Row(_, rest) => rest,
        _ => &[],
    }
}

/// The conditions of `if` or `?:`, with what stands beside each, and the last.
#[tactic(auto, using(crate::proofs::PartViews::choices_view_is))]
#[inline(always)]
pub fn choices_of(node: &Node, wanted: bool) -> Choices<'_>
    ensures { choices_view result ≡ choices_of wanted (node_view node.now) }
{
    choices_here(node, wanted)
}

#[inline(always)]
fn choices_here(node: &Node, wanted: bool) -> Choices<'_>
    ensures { choices_view result ≡ choices_in wanted (out-Node node.now) }
{
    match node {
        Node::If(values, last) => Choices {
            values,
            last: Some(last),
            is_choice: false,
            wanted,
        },
        Node::Choice(values, last) => Choices {
            values,
            last: Some(last),
            is_choice: true,
            wanted,
        },
        _ => Choices {
            values: &[],
            last: None,
            is_choice: false,
            wanted,
        },
    }
}

/// The parts of a loop.
#[inline(always)]
pub fn loop_of(node: &Node) -> Loop<'_>
    ensures { parts_view result ≡ parts_of (node_view node.now) }
{
    Loop {
        start: child_at(node, 0),
        test: child_at(node, 1),
        next: child_at(node, 2),
        body: child_at(node, 3),
    }
}
