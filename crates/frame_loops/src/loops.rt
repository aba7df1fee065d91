// The moves of a loop.

ghost use Rattle.std.specs.Prelude.{IfOk, ◌≡◌, ◌+◌, ◌≤◌};
ghost use Rattle.tcl_trees.specs.TreeView.{node_view};
ghost use Rattle.frame_loops.specs.LoopParts.{parts_view};
ghost use Rattle.frame_loops.specs.Loops.{above, loop_move, next_move, next_told, start_told};
ghost use Rattle.frame_loops.specs.Loops.{test_move, test_told, turn_move};
ghost use Rattle.frames.specs.Reads.{known_by};
ghost use Rattle.frames.specs.Stills.{Spends};

use crate::quick_codes::quick;
use frames::{Frame, Next, Reads, alone, is_leaf, leaf_code};
use px_bytes::{M, Memory, Raise, Steps, TclFault, Text};
use rule_model::Code;
use rule_nodes::{Goes, after_next, truth_of};
use std::sync::ledger::Ledger;
use tcl_trees::Node;

/// What a loop consists of.
#[derive(Clone, Copy)]
pub struct Loop<'a> {
    pub(crate) start: &'a Node,
    pub(crate) test: &'a Node,
    pub(crate) next: &'a Node,
    pub(crate) body: &'a Node,
}

/// A child under a frame; one that has its end at once is done.
#[inline(always)]
pub fn above(reads: &Reads<'_>, node: &Node, frame: Frame) -> M<Next>
    ensures { IfOk result (λ n. n ≡ above (known_by reads.now) (node_view node.now) frame) }
{
    if !is_leaf(node) {
        return Ok(Next::child(frame));
    }
    let code = leaf_code(reads.alloc, reads.statics, reads.vars, node)?;
    Ok(Next::back(frame, code))
}

/// A loop begins: what starts it, and where that is empty, its test.
#[inline(always)]
pub fn begin_loop<L: Ledger, K: Ledger>(
    reads: &Reads<'_>,
    parts: &Loop<'_>,
    budget: &mut u32,
    steps: &mut Steps<L>,
    paid: &mut Steps<K>,
) -> M<Next>
    ensures did { let m = loop_move (known_by reads.now) (parts_view parts.now) budget.old in
        IfOk result (λ n. Spends m paid.old steps.old n budget.new paid.new steps.new) }
    ensures few { steps.new ≤ steps.old + 5 }
{
    paid.tick();
    if !is_leaf(parts.start) {
        return Ok(Next::child(Frame::Start));
    }
    let code = leaf_code(reads.alloc, reads.statics, reads.vars, parts.start)?;
    go_start(reads, parts, code, budget, steps, paid)
}

/// A loop goes on behind what starts it.
#[inline(always)]
pub fn go_start<L: Ledger, K: Ledger>(
    reads: &Reads<'_>,
    parts: &Loop<'_>,
    code: Code,
    budget: &mut u32,
    steps: &mut Steps<L>,
    paid: &mut Steps<K>,
) -> M<Next>
    ensures did { let m = start_told (known_by reads.now) (parts_view parts.now) budget.old code in
        IfOk result (λ n. Spends m paid.old steps.old n budget.new paid.new steps.new) }
    ensures few { steps.new ≤ steps.old + 5 }
{
    match code {
        Code::Value(_) => {
            let left = *budget;
            test(reads, parts, left, budget, steps, paid)
        }
        code => Ok(Next::stop(code)),
    }
}

/// A loop's test begins, with so many turns left.
#[inline(always)]
pub(crate) fn test<L: Ledger, K: Ledger>(
    reads: &Reads<'_>,
    parts: &Loop<'_>,
    left: u32,
    budget: &mut u32,
    steps: &mut Steps<L>,
    paid: &mut Steps<K>,
) -> M<Next>
    ensures did { let m = test_move (known_by reads.now) (parts_view parts.now) left budget.old in
        IfOk result (λ n. Spends m paid.old steps.old n budget.new paid.new steps.new) }
    ensures few { steps.new ≤ steps.old + 5 }
{
    paid.add(alone(parts.test));
    match quick(reads, parts.test, steps, paid)? {
        Some(code) => go_test(reads, parts.body, left, code, budget, steps, paid),
        None => Ok(Next::child(Frame::Test { left })),
    }
}

/// A loop goes on behind its test, with so many turns left.
#[inline(always)]
pub fn go_test<L: Ledger, K: Ledger>(
    reads: &Reads<'_>,
    body: &Node,
    left: u32,
    code: Code,
    budget: &mut u32,
    steps: &mut Steps<L>,
    paid: &mut Steps<K>,
) -> M<Next>
    ensures did { let m =
        test_told (known_by reads.now) (node_view body.now) left budget.old code in
        IfOk result (λ n. Spends m paid.old steps.old n budget.new paid.new steps.new) }
    ensures few { steps.new ≤ steps.old }
{
    match code {
        Code::Value(value) => match truth_of(reads.alloc, value.as_bytes()) {
            Ok(holds) => turn(reads, body, left, holds, budget, steps, paid),
            Err(Raise::Fault(fault)) => Ok(Next::stop(Code::Raised(fault))),
            Err(Raise::Memory) => Err(Memory),
        },
        code => Ok(Next::stop(code)),
    }
}

// A turn begins where the condition holds, for a unit of the budget.
#[inline(always)]
fn turn<L: Ledger, K: Ledger>(
    reads: &Reads<'_>,
    body: &Node,
    left: u32,
    holds: bool,
    budget: &mut u32,
    steps: &mut Steps<L>,
    paid: &mut Steps<K>,
) -> M<Next>
    ensures did { let m =
        turn_move (known_by reads.now) (node_view body.now) left budget.old holds in
        IfOk result (λ n. Spends m paid.old steps.old n budget.new paid.new steps.new) }
    ensures few { steps.new ≤ steps.old }
{
    if !holds {
        return Ok(Next::stop(Code::Value(Text::empty(reads.alloc))));
    }
    if left == 0 || *budget == 0 {
        let fault = TclFault::budget_spent(reads.alloc)?;
        return Ok(Next::stop(Code::Raised(fault)));
    }
    *budget -= 1;
    paid.tick();
    above(reads, body, Frame::Turn { left: left - 1 })
}

/// What comes after a turn begins; where it has its end at once, the test.
pub(crate) fn next<L: Ledger, K: Ledger>(
    reads: &Reads<'_>,
    parts: &Loop<'_>,
    left: u32,
    budget: &mut u32,
    steps: &mut Steps<L>,
    paid: &mut Steps<K>,
) -> M<Next>
    ensures did { let m = next_move (known_by reads.now) (parts_view parts.now) left budget.old in
        IfOk result (λ n. Spends m paid.old steps.old n budget.new paid.new steps.new) }
    ensures few { steps.new ≤ steps.old + 5 }
{
    if !is_leaf(parts.next) {
        return Ok(Next::child(Frame::Next { left }));
    }
    let code = leaf_code(reads.alloc, reads.statics, reads.vars, parts.next)?;
    behind_next(reads, parts, left, code, budget, steps, paid)
}

// A loop goes on behind what comes after a turn and had its end at once.
fn behind_next<L: Ledger, K: Ledger>(
    reads: &Reads<'_>,
    parts: &Loop<'_>,
    left: u32,
    code: Code,
    budget: &mut u32,
    steps: &mut Steps<L>,
    paid: &mut Steps<K>,
) -> M<Next>
    ensures did { let m =
        next_told (known_by reads.now) (parts_view parts.now) left budget.old code in
        IfOk result (λ n. Spends m paid.old steps.old n budget.new paid.new steps.new) }
    ensures few { steps.new ≤ steps.old + 5 }
{
    match after_next(&code) {
        Goes::On => test(reads, parts, left, budget, steps, paid),
        Goes::Over => Ok(Next::stop(Code::Value(Text::empty(reads.alloc)))),
        Goes::Ends => Ok(Next::stop(code)),
    }
}
