// The choice of a `switch`.

ghost use Rattle.std.specs.Prelude.{IfOk, drop, length, ◌+◌, ◌≡◌};
ghost use Rattle.tcl_trees.specs.TreeView.{node_view, nodes_view};
ghost use Rattle.tcl_trees.specs.declared.node.Node.{out-Node};
ghost use Rattle.rule_model.specs.Children.{is_next};
ghost use Rattle.rule_nodes.specs.Choice.{is_next_in};
ghost use Rattle.frames.specs.Reads.{known_by};
ghost use Rattle.frame_loops.specs.Switches.{first_within, switch_next};

use crate::branches::within;
use frames::{Next, Reads};
use px_bytes::{M, Memory, Raise, Text};
use rule_model::Code;
use rule_nodes::hit_of;
use tcl_trees::Node;

/// The body that a `switch` chooses by the values of its words, of which so many are options and
/// the text. The bodies stand behind the words' nodes.
pub fn choose(
    reads: &Reads<'_>,
    front: usize,
    words: &[Text],
    bodies: &[Node],
    before: &[Node],
    wanted: bool,
) -> M<Next>
    ensures { let k = known_by reads.now in
        let all = nodes_view bodies.now in
        let next = switch_next k (length before.now) front all wanted words.now in
        IfOk result (λ n. n ≡ next) }
{
    match hit_of(reads.alloc, front, words) {
        Ok(Some(number)) => first_body(reads, bodies, number, before, wanted),
        Ok(None) => Ok(Next::stop(Code::Value(Text::empty(reads.alloc)))),
        Err(Raise::Fault(fault)) => Ok(Next::stop(Code::Raised(fault))),
        Err(Raise::Memory) => Err(Memory),
    }
}

// The first body from this one on: `-` means the next one.
fn first_body(
    reads: &Reads<'_>,
    bodies: &[Node],
    from: usize,
    before: &[Node],
    wanted: bool,
) -> M<Next>
    ensures { let rest = drop from (nodes_view bodies.now) in
        let next = first_within (known_by reads.now) (length before.now + from) rest wanted in
        IfOk result (λ n. n ≡ next) }
{
    for at in from..bodies.len() {
        let body = &bodies[at];
        if !is_next(body) {
            return within(reads, body, before.len() + at, wanted);
        }
    }
    Ok(Next::stop(Code::Value(Text::empty(reads.alloc))))
}

// Whether the next body is meant.
#[tactic(auto, using(frames::proofs::PriceViews::is_next_view))]
fn is_next(body: &Node) -> bool
    ensures { result ≡ is_next (node_view body.now) }
{
    is_next_here(body)
}

fn is_next_here(body: &Node) -> bool
    ensures { result ≡ is_next_in (out-Node body.now) }
{
    matches!(body, Node::NextBody)
}
