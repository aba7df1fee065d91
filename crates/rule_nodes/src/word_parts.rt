// The parts of a word.

ghost use Rattle.std.specs.Prelude.{◌≡◌};
ghost use Rattle.tcl_trees.specs.declared.node.Node.{out-Node};
ghost use Rattle.rule_nodes.specs.Parts.{parts_in};

use std::slice;
use tcl_trees::Node;

/// The parts of a command's word: those of a word that has any, and else the tree itself alone.
pub fn parts(word: &Node) -> &[Node]
    ensures { result.now ≡ parts_in (out-Node word.now) word.now }
{
    match word {
        Node::Word(parts) if !parts.is_empty() => parts,
        _ => slice::from_ref(word),
    }
}
