// The children of a node.

ghost use Rattle.std.specs.Prelude.{[], get_or, length, map, ◌+◌, ◌∷◌, ◌++◌, ◌≡◌};
ghost use Rattle.tcl_trees.specs.TreeView.{node_view, nodes_view};
ghost use Rattle.tcl_trees.specs.declared.node.Node.{out-Node};
ghost use Rattle.frames.specs.Children.{is_script};
ghost use Rattle.frames.specs.Nodes.{is_script_in};
ghost use Rattle.frames.specs.Children.{child_at, commands_of, parts_of};
ghost use Rattle.frames.specs.Children.{pieces_of, words_of};
ghost use Rattle.frames.specs.Nodes.{both_nodes, children_in, commands_in, pieces_in};
ghost use Rattle.frames.specs.Nodes.{words_in};

use rule_nodes::parts;
use std::slice;
use tcl_expr::Joint;
use tcl_trees::Node;

#[inline(always)]
fn nth<'a>(nodes: &'a [Node], place: usize, other: &'a Node) -> &'a Node
    ensures { result.now ≡ get_or nodes.now place other.now }
{
    if place < nodes.len() {
        &nodes[place]
    } else {
        other
    }
}

#[inline(always)]
fn nth_behind<'a>(nodes: &'a [Node], more: &'a [Node], place: usize, other: &'a Node) -> &'a Node
    ensures { result.now ≡ get_or (nodes.now ++ more.now) place other.now }
{
    if place < nodes.len() {
        &nodes[place]
    } else {
        nth(more, place - nodes.len(), other)
    }
}

#[inline(always)]
fn nth_value<'a>(
    values: &'a [(Node, Node)],
    last: &'a Node,
    place: usize,
    other: &'a Node,
) -> &'a Node
    ensures { let all = both_nodes values.now ++ last.now ∷ [] in
        result.now ≡ get_or all place other.now }
{
    match values.get(place / 2) {
        Some(value) => { if place % 2 == 0 { &value.0 } else { &value.1 } }
        None => nth(slice::from_ref(last), place - 2 * values.len(), other),
    }
}

#[inline(always)]
fn nth_operand<'a>(
    first: &'a Node,
    rest: &'a [(Joint, Node)],
    place: usize,
    other: &'a Node,
) -> &'a Node
    ensures { let all = first.now ∷ map (λ o. o.1) rest.now in
        result.now ≡ get_or all place other.now }
{
    if place == 0 {
        return first;
    }
    match rest.get(place - 1) {
        Some(operand) => &operand.1,
        None => other,
    }
}

#[inline(always)]
fn child_here(node: &Node, place: usize) -> &Node
    ensures { result.now ≡ get_or (children_in (out-Node node.now)) place node.now }
{
    match node {
        Node::Plain(_) | Node::Variable(_) | Node::NextBody => node,
        Node::Element(_, nodes) => nth(nodes, place, node),
        Node::Word(nodes) | Node::Script(nodes) => nth(nodes, place, node),
        Node::Command(_, nodes) => nth(nodes, place, node),
        Node::Expr(child) | Node::Catch(child) => nth(slice::from_ref(child), place, node),
        Node::Prefixed(_, operand) => nth(slice::from_ref(operand), place, node),
        Node::If(values, last) | Node::Choice(values, last) => {
            nth_value(values, last, place, node)
        }
        Node::Loop {
            start,
            test,
            next,
            body,
        } => match place {
            0 => start,
            1 => test,
            2 => next,
            3 => body,
            _ => node,
        },
        Node::Foreach { words, body } => nth_behind(words, slice::from_ref(body), place, node),
        Node::Switch { words, bodies, .. } => nth_behind(words, bodies, place, node),
        Node::CatchIn { body, name } => match place {
            0 => body,
            1 => name,
            _ => node,
        },
        Node::Row(first, rest) => nth_operand(first, rest, place, node),
    }
}

/// The child of a number; the node stands for one that it doesn't have.
#[tactic(auto, using(crate::proofs::NodeViews::child_view))]
#[inline(always)]
pub fn child_at(node: &Node, place: usize) -> &Node
    ensures { node_view result.now ≡ child_at (node_view node.now) place }
{
    child_here(node, place)
}

/// The part of a word, of this number.
#[tactic(auto, using(crate::proofs::NodeViews::part_view))]
#[inline(always)]
pub fn part_at(word: &Node, part: usize) -> &Node
    ensures { let w = node_view word.now in
        node_view result.now ≡ get_or (parts_of w) part w }
{
    nth(parts(word), part, word)
}

/// The parts of a word; any other node is its own only part.
#[tactic(auto, using(crate::proofs::NodeViews::parts_view))]
#[inline(always)]
pub fn word_parts(word: &Node) -> &[Node]
    ensures { nodes_view result.now ≡ parts_of (node_view word.now) }
{
    parts(word)
}

#[inline(always)]
fn commands_here(node: &Node) -> &[Node]
    ensures { result.now ≡ commands_in (out-Node node.now) }
{
    match node {
        Node::Script(commands) => commands,
        _ => &[],
    }
}

/// The commands of a script.
#[tactic(auto, using(crate::proofs::NodeViews::commands_view))]
#[inline(always)]
pub fn commands(node: &Node) -> &[Node]
    ensures { nodes_view result.now ≡ commands_of (node_view node.now) }
{
    commands_here(node)
}

#[inline(always)]
fn pieces_here(node: &Node) -> &[Node]
    ensures { result.now ≡ pieces_in (out-Node node.now) }
{
    match node {
        Node::Word(parts) | Node::Element(_, parts) => parts,
        _ => &[],
    }
}

/// Whether a node is a script.
#[tactic(auto, using(crate::proofs::NodeViews::is_script_view))]
#[inline(always)]
pub fn is_script(node: &Node) -> bool
    ensures { result ≡ is_script (node_view node.now) }
{
    script_here(node)
}

#[inline(always)]
fn script_here(node: &Node) -> bool
    ensures { result ≡ is_script_in (out-Node node.now) }
{
    matches!(node, Node::Script(_))
}

/// The parts of a quoted operand or of an index.
#[tactic(auto, using(crate::proofs::NodeViews::pieces_view))]
#[inline(always)]
pub fn pieces_of(node: &Node) -> &[Node]
    ensures { nodes_view result.now ≡ pieces_of (node_view node.now) }
{
    pieces_here(node)
}

#[inline(always)]
fn words_here(node: &Node) -> &[Node]
    ensures { result.now ≡ words_in (out-Node node.now) }
{
    match node {
        Node::Command(_, words) => words,
        Node::Foreach { words, .. } => words,
        Node::Switch { words, .. } => words,
        _ => &[],
    }
}

/// The words that a node evaluates first.
#[tactic(auto, using(crate::proofs::NodeViews::words_view))]
#[inline(always)]
pub fn words_of(node: &Node) -> &[Node]
    ensures { nodes_view result.now ≡ words_of (node_view node.now) }
{
    words_here(node)
}
