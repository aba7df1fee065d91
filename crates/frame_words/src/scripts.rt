// The moves of a script.

ghost use Rattle.std.specs.Prelude.{IfOk, List, OnOk, false, length, option_map};
ghost use Rattle.std.specs.Prelude.{ℕ, ◌+◌, ◌≡◌, ◌≤◌};
ghost use Rattle.tcl_trees.specs.TreeView.{node_view};
ghost use Rattle.frames.specs.Children.{commands_of};
ghost use Rattle.frames.specs.Moves.{stop};
ghost use Rattle.frame_words.specs.Scripts.{child_next, script_from};
ghost use Rattle.frame_words.specs.Scripts.{GoesFrom, is_value, unheard};
ghost use Rattle.frames.specs.Stills.{Leads, Makes, changes, tally};
ghost use Rattle.rule_model.specs.declared.code.Code.TheVariants.{Value};

use frames::{Frame, Next, child_at, commands, is_leaf, leaf_code};
use px_bytes::{M, Steps, TclFault, Text};
use rule_model::Code;
use rule_nodes::commands_at_once;
use std::alloc::Global;
use std::sync::ledger::Ledger;
use tcl_trees::Node;
use tcl_vars::Vars;

/// A child under a frame: one that has its end at once is done, and any other begins.
#[inline(always)]
pub(crate) fn child_next(
    alloc: Global,
    statics: Option<&Vars>,
    vars: &Vars,
    node: &Node,
    frame: Frame,
) -> M<Next>
    ensures { let level = option_map (λ v. v.now.statics) statics.entry in
        IfOk result (λ n. n ≡ child_next level vars.now (node_view node.now) frame) }
{
    if !is_leaf(node) {
        return Ok(Next::child(frame));
    }
    let code = leaf_code(alloc, statics, vars, node)?;
    Ok(Next::back(frame, code))
}

// How many commands a script has.
#[tactic(auto, using(crate::proofs::InScripts::counted))]
#[inline(always)]
fn count(node: &Node) -> usize
    ensures { result ≡ length (commands_of (node_view node.now)) }
{
    commands(node).len()
}

/// As many commands as one move does at once.
const MOST_COMMANDS: usize = 4;

/// A script from its command of this number on, behind the last value. Commands that are done at
/// once are done in this move, up to four of them; the last only where its value isn't heard.
pub fn script_from<L: Ledger, K: Ledger>(
    alloc: Global,
    statics: Option<&Vars>,
    vars: &mut Vars,
    node: &Node,
    at: usize,
    last: Text,
    wanted: bool,
    budget: &mut u32,
    steps: &mut Steps<L>,
    paid: &mut Steps<K>,
) -> M<Next>
    ensures did { let level = option_map (λ v. v.now.statics) statics.entry in
        let t = node_view node.now in
        let a = tally vars.old budget.old paid.old steps.old in
        let b = tally vars.new budget.new paid.new steps.new in
        IfOk result (λ n. Makes (GoesFrom level t at last wanted vars.old budget.old) a n b) }
    ensures few { steps.new ≤ steps.old + 4 }
{
    let count = count(node);
    let most = at.saturating_add(MOST_COMMANDS);
    let end = unheard(count, wanted).min(most);
    let all = commands(node);
    let reached = commands_at_once(statics, vars, all, at, end, budget, paid);
    if reached <= at {
        let next = command_at(alloc, statics, vars, node, at, last, wanted, budget, paid)?;
        return Ok(next);
    }
    steps.add((reached - at) as u64);
    if reached < most || reached == count {
        let next = command_at(
            alloc, statics, vars, node, reached, last, wanted, budget, paid,
        )?;
        return Ok(next);
    }
    let frame = Frame::Script {
        at: reached - 1,
        wanted: false,
    };
    Ok(Next::back(frame, Code::Value(last)))
}

// How many commands of a script have values that nothing hears.
fn unheard(count: usize, wanted: bool) -> usize
    ensures { result ≡ unheard count wanted }
{
    if wanted {
        count.saturating_sub(1)
    } else {
        count
    }
}

// The command of this number of a script, or its end.
#[inline(always)]
fn command_at<K: Ledger>(
    alloc: Global,
    statics: Option<&Vars>,
    vars: &Vars,
    node: &Node,
    at: usize,
    last: Text,
    wanted: bool,
    budget: &mut u32,
    paid: &mut Steps<K>,
) -> M<Next>
    ensures next { let level = option_map (λ v. v.now.statics) statics.entry in
        let s = script_from level vars.now (node_view node.now) at last wanted budget.old in
        IfOk result (λ n. n ≡ s.move.next) }
    ensures budget { let level = option_map (λ v. v.now.statics) statics.entry in
        let s = script_from level vars.now (node_view node.now) at last wanted budget.old in
        OnOk result (budget.new ≡ s.budget) }
    ensures cost { let level = option_map (λ v. v.now.statics) statics.entry in
        let s = script_from level vars.now (node_view node.now) at last wanted budget.old in
        OnOk result (paid.new ≡ paid.old + s.move.cost) }
{
    let count = count(node);
    if count <= at {
        return Ok(Next::stop(Code::Value(last)));
    }
    if *budget == 0 {
        return Ok(Next::stop(Code::Raised(TclFault::budget_spent(alloc)?)));
    }
    *budget -= 1;
    paid.tick();
    let wanted = wanted && at + 1 == count;
    let command = child_at(node, at);
    child_next(alloc, statics, vars, command, Frame::Script { at, wanted })
}

/// A script goes on behind its command of this number.
#[inline(always)]
pub fn go_script<L: Ledger, K: Ledger>(
    alloc: Global,
    statics: Option<&Vars>,
    vars: &mut Vars,
    node: &Node,
    at: usize,
    wanted: bool,
    code: Code,
    budget: &mut u32,
    steps: &mut Steps<L>,
    paid: &mut Steps<K>,
) -> M<Next>
    ensures goes { let level = option_map (λ v. v.now.statics) statics.entry in
        let t = node_view node.now in
        let a = tally vars.old budget.old paid.old steps.old in
        let b = tally vars.new budget.new paid.new steps.new in
        (v : List ℕ) → code ≡ Value v
        → IfOk result (λ n. Makes (GoesFrom level t (at + 1) v wanted vars.old budget.old) a n b) }
    ensures stops { let level = option_map (λ v. v.now.statics) statics.entry in
        let t = node_view node.now in
        let a = tally vars.old budget.old paid.old steps.old in
        let b = tally vars.new budget.new paid.new steps.new in
        is_value code ≡ false → IfOk result (λ n. Leads (changes budget.old vars.old (stop code)) a
        n b) }
    ensures few { steps.new ≤ steps.old + 4 }
{
    match code {
        Code::Value(value) => {
            if count(node) <= at {
                return Ok(Next::stop(Code::Value(value)));
            }
            script_from(
                alloc,
                statics,
                vars,
                node,
                at + 1,
                value,
                wanted,
                budget,
                steps,
                paid,
            )
        }
        code => Ok(Next::stop(code)),
    }
}
