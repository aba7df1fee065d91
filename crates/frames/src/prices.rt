// What a whole expression costs by itself.

ghost use Rattle.std.specs.Prelude.{◌≡◌};
ghost use Rattle.tcl_trees.specs.TreeView.{node_view};
ghost use Rattle.tcl_trees.specs.declared.node.Node.{out-Node};
ghost use Rattle.rule_model.specs.Children.{alone};
ghost use Rattle.frames.specs.Prices.{alone_in};

use tcl_trees::Node;

/// One where it is a single operand; operators have operands of their own.
#[tactic(auto, using(crate::proofs::PriceViews::alone_view))]
#[inline(always)]
pub fn alone(node: &Node) -> u64
    ensures { result ≡ alone (node_view node.now) }
{
    alone_here(node)
}

#[inline(always)]
fn alone_here(node: &Node) -> u64
    ensures { result ≡ alone_in (out-Node node.now) }
{
    match node {
        Node::Prefixed(..) | Node::Row(..) | Node::Choice(..) => 0,
        _ => 1,
    }
}
