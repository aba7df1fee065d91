// The moves that ask no host, by the kind of a node or of a frame.

ghost use Rattle.std.specs.Prelude.{IfOk, OnOk, option_map, ◌+◌, ◌≡◌, ◌≤◌};
ghost use Rattle.tcl_trees.specs.TreeView.{node_view};
ghost use Rattle.frames.specs.Reads.{known, known_by};
ghost use Rattle.frame_moves.specs.StillMoves.{reading_goes, still_begin, still_goes};

use crate::prefixes::{begin_expr, begin_prefixed, go_operand, go_whole};
use crate::turns::{Count, Turns, go_each};
use frame_loops::{
    begin_branches, begin_loop, begin_row, choices_of, go_condition, go_left, go_right, go_start,
    go_test, joints_of, loop_of, operators_of,
};
use frame_words::{begin_catch, begin_pieces, go_called, go_caught, go_caught_in, go_pieces};
use frames::{Frame, Next, Reads, child_at};
use px_bytes::{M, Steps, Text};
use rule_model::Code;
use std::alloc::Global;
use std::sync::ledger::Ledger;
use tcl_trees::Node;
use tcl_vars::Vars;

/// A node begins that evaluates no words first.
#[inline(always)]
pub(crate) fn begin_still<L: Ledger, K: Ledger>(
    alloc: Global,
    statics: Option<&Vars>,
    vars: &Vars,
    node: &Node,
    wanted: bool,
    budget: &mut u32,
    steps: &mut Steps<L>,
    paid: &mut Steps<K>,
) -> M<Next>
    ensures next { let level = option_map (λ v. v.now.statics) statics.entry in
        let s = still_begin (known level vars.now) (node_view node.now) wanted budget.old in
        IfOk result (λ n. n ≡ s.move.next) }
    ensures budget { let level = option_map (λ v. v.now.statics) statics.entry in
        let s = still_begin (known level vars.now) (node_view node.now) wanted budget.old in
        OnOk result (budget.new ≡ s.budget) }
    ensures cost { let level = option_map (λ v. v.now.statics) statics.entry in
        let s = still_begin (known level vars.now) (node_view node.now) wanted budget.old in
        OnOk result (paid.new ≡ paid.old + s.move.cost) }
    ensures ticks { let level = option_map (λ v. v.now.statics) statics.entry in
        let s = still_begin (known level vars.now) (node_view node.now) wanted budget.old in
        OnOk result (steps.new ≡ steps.old + s.move.ticks) }
    ensures few { steps.new ≤ steps.old + 5 }
{
    let reads = Reads {
        alloc,
        statics,
        vars,
    };
    match node {
        Node::Word(_) | Node::Element(_, _) => begin_pieces(alloc, statics, vars, node, paid),
        Node::Expr(expression) => begin_expr(&reads, expression, steps, paid),
        Node::If(_, _) | Node::Choice(_, _) => {
            begin_branches(&reads, &choices_of(node, wanted), steps, paid)
        }
        Node::Loop { .. } => begin_loop(&reads, &loop_of(node), budget, steps, paid),
        Node::Catch(body) => begin_catch(&reads, body, paid),
        Node::Prefixed(ops, operand) => begin_prefixed(&reads, ops, operand, steps, paid),
        Node::Row(first, _) => begin_row(&reads, first, joints_of(node), steps, paid),
        Node::Plain(_) | Node::Variable(_) | Node::Command(_, _) | Node::Script(_) => {
            Ok(Next::stop(Code::Value(Text::empty(alloc))))
        }
        Node::Foreach { .. } | Node::Switch { .. } | Node::CatchIn { .. } | Node::NextBody => {
            Ok(Next::stop(Code::Value(Text::empty(alloc))))
        }
    }
}

/// A node goes on at any frame but that of words.
#[inline(always)]
pub(crate) fn go_still<L: Ledger, K: Ledger>(
    alloc: Global,
    statics: Option<&Vars>,
    vars: &mut Vars,
    node: &Node,
    frame: Frame,
    code: Code,
    wanted: bool,
    budget: &mut u32,
    steps: &mut Steps<L>,
    paid: &mut Steps<K>,
) -> M<Next>
    ensures next { let level = option_map (λ v. v.now.statics) statics.entry in
        let c = still_goes level vars.old (node_view node.now) frame code wanted budget.old in
        IfOk result (λ n. n ≡ c.move.next) }
    ensures vars { let level = option_map (λ v. v.now.statics) statics.entry in
        let c = still_goes level vars.old (node_view node.now) frame code wanted budget.old in
        OnOk result (vars.new ≡ c.vars) }
    ensures budget { let level = option_map (λ v. v.now.statics) statics.entry in
        let c = still_goes level vars.old (node_view node.now) frame code wanted budget.old in
        OnOk result (budget.new ≡ c.budget) }
    ensures cost { let level = option_map (λ v. v.now.statics) statics.entry in
        let c = still_goes level vars.old (node_view node.now) frame code wanted budget.old in
        OnOk result (paid.new ≡ paid.old + c.move.cost) }
    ensures ticks { let level = option_map (λ v. v.now.statics) statics.entry in
        let c = still_goes level vars.old (node_view node.now) frame code wanted budget.old in
        OnOk result (steps.new ≡ steps.old + c.move.ticks) }
    ensures few { steps.new ≤ steps.old + 5 }
{
    match frame {
        Frame::Each {
            place,
            rows,
            number,
            left,
        } => {
            let turns = Turns {
                alloc,
                statics,
                body: child_at(node, place),
                place,
            };
            let count = Count { number, left };
            go_each(&turns, rows, count, code, vars, budget, paid)
        }
        Frame::CaughtIn { name } => go_caught_in(alloc, statics, name.as_bytes(), code, vars),
        Frame::Called { .. } => go_called(alloc, code, vars),
        frame => {
            let reads = Reads {
                alloc,
                statics,
                vars,
            };
            go_reading(&reads, node, frame, code, wanted, budget, steps, paid)
        }
    }
}

// The frames that change no variable.
#[inline(always)]
fn go_reading<L: Ledger, K: Ledger>(
    reads: &Reads<'_>,
    node: &Node,
    frame: Frame,
    code: Code,
    wanted: bool,
    budget: &mut u32,
    steps: &mut Steps<L>,
    paid: &mut Steps<K>,
) -> M<Next>
    ensures next { let s =
        reading_goes (known_by reads.now) (node_view node.now) frame code wanted budget.old in
        IfOk result (λ n. n ≡ s.move.next) }
    ensures budget { let s =
        reading_goes (known_by reads.now) (node_view node.now) frame code wanted budget.old in
        OnOk result (budget.new ≡ s.budget) }
    ensures cost { let s =
        reading_goes (known_by reads.now) (node_view node.now) frame code wanted budget.old in
        OnOk result (paid.new ≡ paid.old + s.move.cost) }
    ensures ticks { let s =
        reading_goes (known_by reads.now) (node_view node.now) frame code wanted budget.old in
        OnOk result (steps.new ≡ steps.old + s.move.ticks) }
    ensures few { steps.new ≤ steps.old + 5 }
{
    let Reads {
        alloc,
        statics,
        vars,
    } = *reads;
    match frame {
        Frame::Pieces { part, text } => {
            go_pieces(alloc, statics, vars, node, part, text, code, paid)
        }
        Frame::Operand { left } => {
            go_operand(alloc, operators_of(node), left, code, steps, paid)
        }
        Frame::Left { at } => go_left(reads, joints_of(node), at, code, steps, paid),
        Frame::Right { at, joint, left } => {
            go_right(reads, joints_of(node), at, joint, &left, code, steps, paid)
        }
        Frame::Condition { at, .. } => {
            go_condition(reads, &choices_of(node, wanted), at, code, steps, paid)
        }
        Frame::Start => go_start(reads, &loop_of(node), code, budget, steps, paid),
        Frame::Test { left } => {
            go_test(reads, child_at(node, 3), left, code, budget, steps, paid)
        }
        Frame::Caught => go_caught(alloc, code),
        Frame::Whole | Frame::Read { .. } => go_whole(alloc, code),
        _ => Ok(Next::stop(code)),
    }
}
