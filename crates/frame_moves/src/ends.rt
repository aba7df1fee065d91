// What a node does with all its words, where that asks no host.

ghost use Rattle.std.specs.Prelude.{IfOk, drop, option_map, ◌≡◌, ◌+◌, ◌≤◌};
ghost use Rattle.tcl_trees.specs.TreeView.{node_view};
ghost use Rattle.rule_model.specs.Control.{rows_of};
ghost use Rattle.frame_words.specs.CallParts.{caller_view};
ghost use Rattle.frame_moves.specs.Ends.{EachEnds, EndsAs, VerbEnds};
ghost use Rattle.frames.specs.Stills.{Makes, tally};

use crate::reading::begin_read;
use crate::turns::{Count, Turns, each_turn};
use frame_loops::choose;
use frame_words::{Caller, begin_caught_in, enter};
use frames::{Next, Reads, copies};
use px_bytes::{M, Memory, Raise, Steps, Text, Texts};
use rule_model::Code;
use rule_nodes::{most_turns, rows_of};
use std::alloc::Global;
use std::sync::ledger::Ledger;
use tcl_trees::{Node, Verb};
use tcl_vars::Vars;

// The words behind the name.
fn behind_name(words: &Texts) -> &[Text]
    ensures { result.now ≡ drop 1 words.now }
{
    match words.as_slice() {
        [_, rest @ ..] => rest,
        [] => &[],
    }
}

// The same, copied.
#[tactic(auto, using(frames::proofs::Heard::map_same))]
fn copied_behind(alloc: Global, words: &Texts) -> M<Texts>
    ensures { IfOk result (λ all. all ≡ drop 1 words.now) }
{
    copies(alloc, behind_name(words))
}

// A `foreach` begins with its words.
fn begin_rows<K: Ledger>(
    turns: &Turns<'_>,
    words: &Texts,
    vars: &mut Vars,
    budget: &mut u32,
    paid: &mut Steps<K>,
) -> M<Next>
    ensures { let level = option_map (λ v. v.now.statics) turns.now.statics in
        let place = turns.now.place in
        let body = node_view turns.now.body.now in
        let rows = rows_of (drop 1 words.now) in
        let old = tally vars.old budget.old paid.old 0 in
        let new = tally vars.new budget.new paid.new 0 in
        IfOk result (λ next.
        Makes (EachEnds level place body rows vars.old budget.old) old next new) }
{
    let lists = copied_behind(turns.alloc, words)?;
    match rows_of(turns.alloc, &lists) {
        Ok(rows) => {
            let left = most_turns(rows.as_slice());
            let count = Count { number: 0, left };
            let next = each_turn(turns, rows, count, vars, budget, paid)?;
            Ok(next)
        }
        Err(Raise::Fault(fault)) => Ok(Next::stop(Code::Raised(fault))),
        Err(Raise::Memory) => Err(Memory),
    }
}

// A call, or an expression that is read when it runs.
fn end_command<L: Ledger, K: Ledger>(
    caller: &Caller<'_>,
    verb: Verb,
    words: &Texts,
    vars: &mut Vars,
    budget: u32,
    steps: &mut Steps<L>,
    paid: &mut Steps<K>,
) -> M<Next>
    ensures did { let c = caller_view caller.now in
        let old = tally vars.old budget paid.old steps.old in
        let new = tally vars.new budget paid.new steps.new in
        IfOk result (λ next. Makes (VerbEnds c verb words.now vars.old budget) old next new) }
    ensures few { steps.new ≤ steps.old + 5 }
{
    match verb {
        Verb::Call => {
            let next = enter(caller, words, vars)?;
            Ok(next)
        }
        Verb::ExprOfWords => {
            let reads = Reads {
                alloc: caller.alloc,
                statics: caller.statics,
                vars,
            };
            let next = begin_read(&reads, caller.room, words, steps, paid)?;
            Ok(next)
        }
        _ => Ok(Next::stop(Code::Value(Text::empty(caller.alloc)))),
    }
}

/// What a node does with all its words, of which the first is the name.
pub(crate) fn end_words<L: Ledger, K: Ledger>(
    caller: &Caller<'_>,
    node: &Node,
    words: &Texts,
    vars: &mut Vars,
    budget: &mut u32,
    steps: &mut Steps<L>,
    paid: &mut Steps<K>,
) -> M<Next>
    ensures did { let c = caller_view caller.now in
        let old = tally vars.old budget.old paid.old steps.old in
        let new = tally vars.new budget.new paid.new steps.new in
        let t = node_view node.now in
        IfOk result (λ next. Makes (EndsAs c t words.now vars.old budget.old) old next new) }
    ensures few { steps.new ≤ steps.old + 5 }
{
    let (alloc, statics) = (caller.alloc, caller.statics);
    match node {
        Node::Foreach { words: all, body } => {
            let place = all.len();
            let turns = Turns {
                alloc,
                statics,
                body,
                place,
            };
            let next = begin_rows(&turns, words, vars, budget, paid)?;
            Ok(next)
        }
        Node::Switch {
            front,
            words: all,
            bodies,
        } => {
            let reads = Reads {
                alloc,
                statics,
                vars,
            };
            let next = choose(
                &reads,
                *front,
                behind_name(words),
                bodies,
                all,
                caller.wanted,
            )?;
            Ok(next)
        }
        Node::CatchIn { body, .. } => {
            let next = begin_caught_in(alloc, statics, words, body, vars)?;
            Ok(next)
        }
        Node::Command(verb, _) => {
            let next = end_command(caller, *verb, words, vars, *budget, steps, paid)?;
            Ok(next)
        }
        _ => Ok(Next::stop(Code::Value(Text::empty(alloc)))),
    }
}
