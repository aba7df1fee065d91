// A loop behind its body, and behind what comes after a turn.

ghost use Rattle.std.specs.Bool.{OnFalse, OnTrue};
ghost use Rattle.std.specs.Prelude.{IfOk, length, option_map, true, ◌+◌, ◌<◌, ◌≡◌, ◌≤◌};
ghost use Rattle.tcl_trees.specs.TreeView.{node_view};
ghost use Rattle.tcl_trees.specs.declared.node.Node.{out-Node};
ghost use Rattle.rule_nodes.specs.AtOnce.{DoesFront};
ghost use Rattle.rule_nodes.specs.Goes.{body_goes, next_goes};
ghost use Rattle.rule_nodes.specs.declared.goes.Goes.TheVariants.{On};
ghost use Rattle.frame_loops.specs.AtOnce.{DoesTurns, OnOff, Turns, are_scripts, ended};
ghost use Rattle.frame_loops.specs.AtOnce.{is_start, turn_unit};
ghost use Rattle.frames.specs.Children.{commands_of};
ghost use Rattle.frame_loops.specs.LoopParts.{parts_view};
ghost use Rattle.frames.specs.Stills.{Leads, Makes, tally};

use crate::loops::{Loop, above, next, test};
use frames::{Frame, Next, Reads, commands, is_script};
use px_bytes::{M, Steps, Text};
use rule_model::Code;
use rule_nodes::{Goes, Work, after_body, after_next, command_at_once, whole_at_once};
use std::alloc::Global;
use std::sync::ledger::Ledger;
use tcl_trees::Node;
use tcl_vars::Vars;

/// A turn begins at once as long as fewer ticks were counted: it ticks three times at most, once
/// for each command in it, and once for itself unless it is the first, which ticks with the move.
const MOST_TICKS: u64 = 7;

/// As many operators as a test may apply that is asked at once.
const MOST_OPERATORS: u32 = 4;

/// Which part of a loop comes next behind the turns that were done at once.
#[derive(Clone, Copy)]
enum Part {
    /// Its test.
    Test,
    /// Its body, for which a unit and a turn were taken.
    Body,
    /// What comes after a turn.
    Next,
    /// None: the test doesn't hold.
    Over,
}

/// A loop goes on behind its body, with so many turns left.
#[inline(always)]
pub fn go_turn<L: Ledger, K: Ledger>(
    alloc: Global,
    statics: Option<&Vars>,
    vars: &mut Vars,
    parts: &Loop<'_>,
    left: u32,
    code: Code,
    budget: &mut u32,
    steps: &mut Steps<L>,
    paid: &mut Steps<K>,
) -> M<Next>
    ensures goes { let level = option_map (λ v. v.now.statics) statics.entry in
        let a = tally vars.old budget.old paid.old steps.old in
        let b = tally vars.new budget.new paid.new steps.new in
        body_goes code ≡ On → IfOk result (λ n.
        Makes (Turns level (parts_view parts.now) Part.Next left vars.old budget.old) a n b) }
    ensures ends { let level = option_map (λ v. v.now.statics) statics.entry in
        let a = tally vars.old budget.old paid.old steps.old in
        let b = tally vars.new budget.new paid.new steps.new in
        OnOff (body_goes code) (λ go. IfOk result (λ n. Leads (ended go code vars.old budget.old) a
        n b)) }
    ensures few { steps.new ≤ steps.old + 9 }
{
    match after_body(&code) {
        Goes::On => turns(
            alloc,
            statics,
            vars,
            parts,
            Part::Next,
            left,
            budget,
            steps,
            paid,
        ),
        Goes::Over => Ok(Next::stop(Code::Value(Text::empty(alloc)))),
        Goes::Ends => Ok(Next::stop(code)),
    }
}

/// A loop goes on behind what comes after a turn, with so many turns left.
#[inline(always)]
pub fn go_next<L: Ledger, K: Ledger>(
    alloc: Global,
    statics: Option<&Vars>,
    vars: &mut Vars,
    parts: &Loop<'_>,
    left: u32,
    code: Code,
    budget: &mut u32,
    steps: &mut Steps<L>,
    paid: &mut Steps<K>,
) -> M<Next>
    ensures goes { let level = option_map (λ v. v.now.statics) statics.entry in
        let a = tally vars.old budget.old paid.old steps.old in
        let b = tally vars.new budget.new paid.new steps.new in
        next_goes code ≡ On → IfOk result (λ n.
        Makes (Turns level (parts_view parts.now) Part.Test left vars.old budget.old) a n b) }
    ensures ends { let level = option_map (λ v. v.now.statics) statics.entry in
        let a = tally vars.old budget.old paid.old steps.old in
        let b = tally vars.new budget.new paid.new steps.new in
        OnOff (next_goes code) (λ go. IfOk result (λ n. Leads (ended go code vars.old budget.old) a
        n b)) }
    ensures few { steps.new ≤ steps.old + 9 }
{
    match after_next(&code) {
        Goes::On => turns(
            alloc,
            statics,
            vars,
            parts,
            Part::Test,
            left,
            budget,
            steps,
            paid,
        ),
        Goes::Over => Ok(Next::stop(Code::Value(Text::empty(alloc)))),
        Goes::Ends => Ok(Next::stop(code)),
    }
}

// A loop from its test or from what comes after a turn: as many turns as are done at once, and
// then what comes next.
fn turns<L: Ledger, K: Ledger>(
    alloc: Global,
    statics: Option<&Vars>,
    vars: &mut Vars,
    parts: &Loop<'_>,
    from: Part,
    left: u32,
    budget: &mut u32,
    steps: &mut Steps<L>,
    paid: &mut Steps<K>,
) -> M<Next>
    requires start { is_start from ≡ true }
    ensures did { let level = option_map (λ v. v.now.statics) statics.entry in
        let a = tally vars.old budget.old paid.old steps.old in
        let b = tally vars.new budget.new paid.new steps.new in
        IfOk result (λ n. Makes (Turns level (parts_view parts.now) from left vars.old budget.old)
        a n b) }
    ensures few { steps.new ≤ steps.old + 9 }
{
    let mut left = left;
    let mut ticks = 0;
    let part = short_turns(
        statics, vars, parts, from, &mut left, budget, &mut ticks, paid,
    );
    steps.add(ticks);
    let reads = Reads {
        alloc,
        statics,
        vars,
    };
    match part {
        Part::Over => Ok(Next::stop(Code::Value(Text::empty(alloc)))),
        Part::Body => above(&reads, parts.body, Frame::Turn { left }),
        Part::Next if ticks == 0 => next(&reads, parts, left, budget, steps, paid),
        Part::Next => above(&reads, parts.next, Frame::Next { left }),
        Part::Test if ticks == 0 => test(&reads, parts, left, budget, steps, paid),
        Part::Test => {
            let none = Code::Value(Text::empty(alloc));
            Ok(Next::back(Frame::Next { left }, none))
        }
    }
}

// Does turns whose parts are all done at once: the part that wasn't.
fn short_turns<K: Ledger>(
    statics: Option<&Vars>,
    vars: &mut Vars,
    parts: &Loop<'_>,
    from: Part,
    left: &mut u32,
    budget: &mut u32,
    ticks: &mut u64,
    paid: &mut Steps<K>,
) -> Part
    requires start { is_start from ≡ true }
    requires unticked { ticks.old ≡ 0 }
    ensures does { let level = option_map (λ v. v.now.statics) statics.entry in
        let l = parts_view parts.now in
        DoesTurns level l from result left.old left.new vars.old budget.old paid.old vars.new
        budget.new paid.new }
    ensures pays { ticks.new + turn_unit result + paid.old ≤ paid.new }
    ensures few { ticks.new ≤ 9 }
{
    if !is_script(parts.body) || !is_script(parts.next) {
        return from;
    }
    if let Part::Next = from {
        if !short_part(statics, vars, parts.next, budget, ticks, paid) {
            return Part::Next;
        }
    }
    let mut turn_ticks = 0;
    while *ticks < MOST_TICKS {
        match begin_turn(statics, vars, parts, left, budget, paid) {
            Part::Body => {}
            part => return part,
        }
        if !short_part(statics, vars, parts.body, budget, ticks, paid) {
            return Part::Body;
        }
        *ticks += turn_ticks;
        turn_ticks = 1;
        if !short_part(statics, vars, parts.next, budget, ticks, paid) {
            return Part::Next;
        }
    }
    Part::Test
}

// A turn begins where its test holds and is asked at once, for a unit of the budget.
fn begin_turn<K: Ledger>(
    statics: Option<&Vars>,
    vars: &Vars,
    parts: &Loop<'_>,
    left: &mut u32,
    budget: &mut u32,
    paid: &mut Steps<K>,
) -> Part
    requires scripts { are_scripts (parts_view parts.now) ≡ true }
    ensures does { let level = option_map (λ v. v.now.statics) statics.entry in
        let l = parts_view parts.now in
        DoesTurns level l Part.Test result left.old left.new vars.now budget.old paid.old vars.now
        budget.new paid.new }
    ensures pays { turn_unit result + paid.old ≤ paid.new }
    ensures onward { result ≡ Part.Body → left.new < left.old }
    ensures never { result ≡ Part.Next → ⊥ }
{
    let mut work = Work {
        operators: MOST_OPERATORS,
        cost: 0,
    };
    let Some(value) = whole_at_once(statics, vars, parts.test, &mut work) else {
        return Part::Test;
    };
    if value == 0 {
        paid.add(work.cost);
        return Part::Over;
    }
    if *left == 0 || *budget == 0 {
        return Part::Test;
    }
    paid.add(work.cost);
    paid.tick();
    *left -= 1;
    *budget -= 1;
    Part::Body
}

// Does what is empty or one command that is done at once: whether it was done.
fn short_part<K: Ledger>(
    statics: Option<&Vars>,
    vars: &mut Vars,
    part: &Node,
    budget: &mut u32,
    ticks: &mut u64,
    paid: &mut Steps<K>,
) -> bool
    requires few_ticks { ticks.old ≤ 9 }
    ensures done { let level = option_map (λ v. v.now.statics) statics.entry in
        let ts = commands_of (node_view part.now) in
        OnTrue result (DoesFront level ts (length ts) vars.old budget.old paid.old vars.new
        budget.new paid.new) }
    ensures ticks { OnTrue result (ticks.new ≡ ticks.old + length (commands_of (node_view
        part.now))) }
    ensures few { OnTrue result (length (commands_of (node_view part.now)) ≤ 1) }
    ensures same_variables { OnFalse result (vars.new ≡ vars.old) }
    ensures same_budget { OnFalse result (budget.new ≡ budget.old) }
    ensures same_ticks { OnFalse result (ticks.new ≡ ticks.old) }
    ensures nothing_paid { OnFalse result (paid.new ≡ paid.old) }
{
    match commands(part) {
        [] => true,
        [command] => {
            let done = command_at_once(statics, vars, command, budget, paid);
            if done {
                *ticks += 1;
            }
            done
        }
        _ => false,
    }
}
