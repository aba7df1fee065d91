// The moves of `if` and `?:`.

ghost use Rattle.std.specs.Prelude.{IfOk, IfSome, OnOk, drop, length, option_map};
ghost use Rattle.std.specs.Prelude.{slice_get, ◌+◌, ◌<◌, ◌≡◌, ◌≤◌};
ghost use Rattle.tcl_trees.specs.TreeView.{node_view};
ghost use Rattle.frame_loops.specs.Branches.{asked_move, branches_move};
ghost use Rattle.frame_loops.specs.Branches.{condition_cost, condition_move};
ghost use Rattle.frame_loops.specs.Branches.{condition_told, holds_by, last_move, told_by};
ghost use Rattle.frame_loops.specs.Branches.{value_move, within};
ghost use Rattle.frame_loops.specs.ChoiceParts.{choices_view};
ghost use Rattle.rule_nodes.specs.Operators.{truth_read};
ghost use Rattle.frames.specs.Reads.{known_by};

use crate::quick_codes::quick;
use frames::{Frame, Next, Reads, alone, is_leaf, leaf_code};
use px_bytes::{M, Memory, Raise, Steps, Text};
use rule_model::Code;
use rule_nodes::truth_of;
use std::sync::ledger::Ledger;
use tcl_trees::Node;

/// The conditions of `if` or `?:` with what stands beside each, and the last.
#[derive(Clone, Copy)]
pub struct Choices<'a> {
    pub(crate) values: &'a [(Node, Node)],
    pub(crate) last: Option<&'a Node>,
    pub(crate) is_choice: bool,
    pub(crate) wanted: bool,
}

/// `if` or `?:` begins.
pub fn begin_branches<L: Ledger, K: Ledger>(
    reads: &Reads<'_>,
    choices: &Choices<'_>,
    steps: &mut Steps<L>,
    paid: &mut Steps<K>,
) -> M<Next>
    ensures next { let m = branches_move (known_by reads.now) (choices_view choices.now) in
        IfOk result (λ n. n ≡ m.next) }
    ensures cost { let m = branches_move (known_by reads.now) (choices_view choices.now) in
        OnOk result (paid.new ≡ paid.old + m.cost) }
    ensures ticks { let m = branches_move (known_by reads.now) (choices_view choices.now) in
        OnOk result (steps.new ≡ steps.old + m.ticks) }
    ensures few { steps.new ≤ steps.old + 5 }
{
    if !choices.is_choice {
        paid.tick();
    }
    condition(reads, choices, 0, steps, paid)
}

/// `if` or `?:` goes on behind the condition of this number.
pub fn go_condition<L: Ledger, K: Ledger>(
    reads: &Reads<'_>,
    choices: &Choices<'_>,
    at: usize,
    code: Code,
    steps: &mut Steps<L>,
    paid: &mut Steps<K>,
) -> M<Next>
    ensures next { let m = condition_told (known_by reads.now) (choices_view choices.now) at code in
        IfOk result (λ n. n ≡ m.next) }
    ensures cost { let m = condition_told (known_by reads.now) (choices_view choices.now) at code in
        OnOk result (paid.new ≡ paid.old + m.cost) }
    ensures ticks { let m =
        condition_told (known_by reads.now) (choices_view choices.now) at code in
        OnOk result (steps.new ≡ steps.old + m.ticks) }
    ensures few { steps.new ≤ steps.old + 5 }
{
    match code {
        Code::Value(value) => match truth_of(reads.alloc, value.as_bytes()) {
            Ok(holds) => told(reads, choices, at, holds, steps, paid),
            Err(Raise::Fault(fault)) => Ok(Next::stop(Code::Raised(fault))),
            Err(Raise::Memory) => Err(Memory),
        },
        code => Ok(Next::stop(code)),
    }
}

// Behind a condition of this value.
#[tactic(auto, using(crate::proofs::BranchSteps::none_here))]
fn told<L: Ledger, K: Ledger>(
    reads: &Reads<'_>,
    choices: &Choices<'_>,
    at: usize,
    holds: bool,
    steps: &mut Steps<L>,
    paid: &mut Steps<K>,
) -> M<Next>
    ensures next { let c = choices_view choices.now in
        let m = told_by (known_by reads.now) c at (drop at c.values) holds in
        IfOk result (λ n. n ≡ m.next) }
    ensures cost { let c = choices_view choices.now in
        let m = told_by (known_by reads.now) c at (drop at c.values) holds in
        OnOk result (paid.new ≡ paid.old + m.cost) }
    ensures ticks { let c = choices_view choices.now in
        let m = told_by (known_by reads.now) c at (drop at c.values) holds in
        OnOk result (steps.new ≡ steps.old + m.ticks) }
    ensures few { steps.new ≤ steps.old + 5 }
{
    let Some(pair) = pair_at(choices.values, at) else {
        return last(reads, choices, paid);
    };
    if holds {
        return value(reads, choices, &pair.1, at + at + 1, paid);
    }
    condition(reads, choices, at + 1, steps, paid)
}

fn pair_at(values: &[(Node, Node)], at: usize) -> Option<&(Node, Node)>
    ensures pair { option_map (λ v. v.now) result ≡ slice_get values.now at }
    ensures below { IfSome result (λ v. at < length values.now) }
{
    values.get(at)
}

// The condition of this number with those behind it, or else the last.
#[tactic(auto, using(crate::proofs::BranchSteps::pair_here, crate::proofs::BranchSteps::none_here))]
fn condition<L: Ledger, K: Ledger>(
    reads: &Reads<'_>,
    choices: &Choices<'_>,
    at: usize,
    steps: &mut Steps<L>,
    paid: &mut Steps<K>,
) -> M<Next>
    ensures next { let c = choices_view choices.now in
        let m = condition_move (known_by reads.now) c at (drop at c.values) in
        IfOk result (λ n. n ≡ m.next) }
    ensures cost { let c = choices_view choices.now in
        let m = condition_move (known_by reads.now) c at (drop at c.values) in
        OnOk result (paid.new ≡ paid.old + m.cost) }
    ensures ticks { let c = choices_view choices.now in
        let m = condition_move (known_by reads.now) c at (drop at c.values) in
        OnOk result (steps.new ≡ steps.old + m.ticks) }
    ensures few { steps.new ≤ steps.old + 5 }
{
    let Some(pair) = pair_at(choices.values, at) else {
        return last(reads, choices, paid);
    };
    ask(reads, choices, at, pair, steps, paid)
}

// A condition that has its end at once is asked in this move.
fn ask<L: Ledger, K: Ledger>(
    reads: &Reads<'_>,
    choices: &Choices<'_>,
    at: usize,
    pair: &(Node, Node),
    steps: &mut Steps<L>,
    paid: &mut Steps<K>,
) -> M<Next>
    requires { at < length choices.now.values.now }
    ensures next { let c = choices_view choices.now in
        let m =
        asked_move (known_by reads.now) c at (node_view pair.now.0) (node_view pair.now.1) in
        IfOk result (λ n. n ≡ m.next) }
    ensures cost { let c = choices_view choices.now in
        let m =
        asked_move (known_by reads.now) c at (node_view pair.now.0) (node_view pair.now.1) in
        OnOk result (paid.new ≡ paid.old + m.cost) }
    ensures ticks { let c = choices_view choices.now in
        let m =
        asked_move (known_by reads.now) c at (node_view pair.now.0) (node_view pair.now.1) in
        OnOk result (steps.new ≡ steps.old + m.ticks) }
    ensures few { steps.new ≤ steps.old + 5 }
{
    paid.add(condition_cost(choices.is_choice, &pair.0));
    match quick(reads, &pair.0, steps, paid)? {
        Some(Code::Value(text)) => holds(reads, choices, at, &pair.1, text, steps, paid),
        Some(code) => Ok(Next::stop(code)),
        None => {
            let place = at + at;
            Ok(Next::child(Frame::Condition { at, place }))
        }
    }
}

// A condition of `?:` is an operator's operand, and one of `if` a whole expression.
fn condition_cost(is_choice: bool, condition: &Node) -> u64
    ensures { result ≡ condition_cost is_choice (node_view condition.now) }
{
    if is_choice { 2 } else { alone(condition) }
}

// A condition that has its value at once lets its body run, or waits for the next move.
fn holds<L: Ledger, K: Ledger>(
    reads: &Reads<'_>,
    choices: &Choices<'_>,
    at: usize,
    body: &Node,
    text: Text,
    steps: &mut Steps<L>,
    paid: &mut Steps<K>,
) -> M<Next>
    requires { at < length choices.now.values.now }
    ensures next { let c = choices_view choices.now in
        let m = holds_by (known_by reads.now) c at (node_view body.now) text (truth_read text) in
        IfOk result (λ n. n ≡ m.next) }
    ensures cost { let c = choices_view choices.now in
        let m = holds_by (known_by reads.now) c at (node_view body.now) text (truth_read text) in
        OnOk result (paid.new ≡ paid.old + m.cost) }
    ensures ticks { let c = choices_view choices.now in
        let m = holds_by (known_by reads.now) c at (node_view body.now) text (truth_read text) in
        OnOk result (steps.new ≡ steps.old + m.ticks) }
    ensures few { steps.new ≤ steps.old }
{
    match truth_of(reads.alloc, text.as_bytes()) {
        Ok(true) => value(reads, choices, body, at + at + 1, paid),
        Ok(false) => {
            let place = at + at;
            Ok(Next::back(Frame::Condition { at, place }, Code::Value(text)))
        }
        Err(Raise::Fault(fault)) => Ok(Next::stop(Code::Raised(fault))),
        Err(Raise::Memory) => Err(Memory),
    }
}

fn last<K: Ledger>(reads: &Reads<'_>, choices: &Choices<'_>, paid: &mut Steps<K>) -> M<Next>
    ensures next { let m = last_move (known_by reads.now) (choices_view choices.now) in
        IfOk result (λ n. n ≡ m.next) }
    ensures cost { let m = last_move (known_by reads.now) (choices_view choices.now) in
        OnOk result (paid.new ≡ paid.old + m.cost) }
{
    match choices.last {
        Some(last) => {
            let count = choices.values.len();
            value(reads, choices, last, count + count, paid)
        }
        None => Ok(Next::stop(Code::Value(Text::empty(reads.alloc)))),
    }
}

// A body of `if`, or a value of `?:`, which is the child of this number.
fn value<K: Ledger>(
    reads: &Reads<'_>,
    choices: &Choices<'_>,
    node: &Node,
    place: usize,
    paid: &mut Steps<K>,
) -> M<Next>
    ensures next { let c = choices_view choices.now in
        let m = value_move (known_by reads.now) c (node_view node.now) place in
        IfOk result (λ n. n ≡ m.next) }
    ensures cost { let c = choices_view choices.now in
        let m = value_move (known_by reads.now) c (node_view node.now) place in
        OnOk result (paid.new ≡ paid.old + m.cost) }
{
    if choices.is_choice {
        paid.tick();
    }
    within(reads, node, place, choices.wanted)
}

/// A child whose end is the node's.
pub(crate) fn within(reads: &Reads<'_>, node: &Node, place: usize, wanted: bool) -> M<Next>
    ensures { let next = within (known_by reads.now) (node_view node.now) place wanted in
        IfOk result (λ n. n ≡ next) }
{
    if !is_leaf(node) {
        return Ok(Next::child(Frame::Body { place, wanted }));
    }
    let code = leaf_code(reads.alloc, reads.statics, reads.vars, node)?;
    Ok(Next::stop(code))
}
