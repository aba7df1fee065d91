// The moves of an expression that is read when it runs.

ghost use Rattle.std.specs.Prelude.{IfOk, OnOk, ◌+◌, ◌≡◌, ◌≤◌};
ghost use Rattle.tcl_trees.specs.TreeView.{node_view};
ghost use Rattle.rule_model.specs.Commands.{expression_of};
ghost use Rattle.frame_moves.specs.Reading.{IsReading, ReadsFrom, StandsIn, expression_cost};
ghost use Rattle.frame_moves.specs.Reading.{expression_ticks, read_cost, read_next, read_ticks};
ghost use Rattle.frames.specs.Reads.{known_by};

use crate::prefixes::go_whole;
use expr_of_words::read_expression;
use frame_loops::quick;
use frames::{Frame, Next, Reads, Room, alone};
use px_bytes::{M, Memory, Raise, Steps, Texts};
use rule_model::Code;
use rule_nodes::too_deep;
use std::alloc::Global;
use std::sync::ledger::Ledger;
use tcl_trees::Node;

/// `expr` with these words, of which the first is the name.
pub(crate) fn begin_read<L: Ledger, K: Ledger>(
    reads: &Reads<'_>,
    room: Room,
    words: &Texts,
    steps: &mut Steps<L>,
    paid: &mut Steps<K>,
) -> M<Next>
    ensures next { let read = expression_of words.now in
        IfOk result (λ n. ReadsFrom (known_by reads.now) room read n) }
    ensures cost { let read = expression_of words.now in
        OnOk result (paid.new ≡ paid.old + expression_cost (known_by reads.now) room read) }
    ensures ticks { let read = expression_of words.now in
        OnOk result (steps.new ≡ steps.old + expression_ticks (known_by reads.now) room read) }
    ensures few { steps.new ≤ steps.old + 5 }
{
    match read_expression(reads.alloc, words) {
        Ok(tree) => begin_tree(reads, room, tree, steps, paid),
        Err(Raise::Fault(fault)) => Ok(Next::stop(Code::Raised(fault))),
        Err(Raise::Memory) => Err(Memory),
    }
}

// An expression that was read. What has exits borrows it, since each exit would drop it anew.
fn begin_tree<L: Ledger, K: Ledger>(
    reads: &Reads<'_>,
    room: Room,
    tree: Node,
    steps: &mut Steps<L>,
    paid: &mut Steps<K>,
) -> M<Next>
    ensures next { IfOk result (λ n. IsReading (known_by reads.now) room (node_view tree) n) }
    ensures cost { let cost = read_cost (known_by reads.now) room (node_view tree) in
        OnOk result (paid.new ≡ paid.old + cost) }
    ensures ticks { let ticks = read_ticks (known_by reads.now) room (node_view tree) in
        OnOk result (steps.new ≡ steps.old + ticks) }
    ensures few { steps.new ≤ steps.old + 5 }
{
    match read_at_once(reads, room, &tree, steps, paid) {
        Ok(None) => stand_in(reads.alloc, room, tree),
        Ok(Some(next)) => {
            drop(tree);
            Ok(next)
        }
        Err(memory) => {
            drop(tree);
            Err(memory)
        }
    }
}

// What an expression that was read comes to in the move that reads it.
fn read_at_once<L: Ledger, K: Ledger>(
    reads: &Reads<'_>,
    room: Room,
    tree: &Node,
    steps: &mut Steps<L>,
    paid: &mut Steps<K>,
) -> M<Option<Next>>
    ensures next { let next = read_next (known_by reads.now) room (node_view tree.now) in
        IfOk result (λ n. n ≡ next) }
    ensures cost { let cost = read_cost (known_by reads.now) room (node_view tree.now) in
        OnOk result (paid.new ≡ paid.old + cost) }
    ensures ticks { let ticks = read_ticks (known_by reads.now) room (node_view tree.now) in
        OnOk result (steps.new ≡ steps.old + ticks) }
    ensures few { steps.new ≤ steps.old + 5 }
{
    paid.add(alone(tree));
    if room.expressions == 0 {
        let fault = too_deep(reads.alloc)?;
        return Ok(Some(Next::stop(Code::Raised(fault))));
    }
    match quick(reads, tree, steps, paid)? {
        Some(code) => Ok(Some(go_whole(reads.alloc, code)?)),
        None => Ok(None),
    }
}

// A frame owns the expression, which begins.
fn stand_in(alloc: Global, room: Room, tree: Node) -> M<Next>
    ensures { IfOk result (λ n. StandsIn room (node_view tree) n) }
{
    let tree = Box::new(alloc, tree)?;
    let room = Room {
        expressions: room.expressions.saturating_sub(1),
        ..room
    };
    Ok(Next::child(Frame::Read { tree, room }))
}
