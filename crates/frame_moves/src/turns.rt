// The moves of `foreach`.

ghost use Rattle.std.specs.Prelude.{IfOk, ◌<◌, ◌≡◌};
ghost use Rattle.frames.specs.Stills.{Leads, tally};
ghost use Rattle.frame_moves.specs.TurnParts.{turns_view};
ghost use Rattle.frame_moves.specs.Turns.{body_next, each_move, each_told};

use frame_loops::above;
use frames::{Frame, Next, Reads};
use px_bytes::{M, Memory, Raise, Steps, TclFault, Text};
use rule_model::Code;
use rule_nodes::{Goes, Row, after_body, set_turn};
use std::alloc::Global;
use std::sync::ledger::Ledger;
use tcl_trees::Node;
use tcl_vars::Vars;

/// What stays over the turns of a `foreach`: the body, which is the child of this number.
#[derive(Clone, Copy)]
pub(crate) struct Turns<'a> {
    pub(crate) alloc: Global,
    pub(crate) statics: Option<&'a Vars>,
    pub(crate) body: &'a Node,
    pub(crate) place: usize,
}

/// Which turn comes next, and how many are left with it.
#[derive(Clone, Copy)]
pub(crate) struct Count {
    pub(crate) number: usize,
    pub(crate) left: usize,
}

/// The turn of this number, where so many are left. Memory is refused to a turn past `usize::MAX`.
pub(crate) fn each_turn<K: Ledger>(
    turns: &Turns<'_>,
    rows: Vec<Row>,
    count: Count,
    vars: &mut Vars,
    budget: &mut u32,
    paid: &mut Steps<K>,
) -> M<Next>
    ensures { let t = turns_view turns.now rows in
        let c = each_move t count.number count.left budget.old vars.old in
        let old = tally vars.old budget.old paid.old 0 in
        let new = tally vars.new budget.new paid.new 0 in
        IfOk result (λ n. Leads c old n new) }
{
    if count.left == 0 {
        return Ok(Next::stop(Code::Value(Text::empty(turns.alloc))));
    }
    if *budget == 0 {
        let fault = TclFault::budget_spent(turns.alloc)?;
        return Ok(Next::stop(Code::Raised(fault)));
    }
    *budget -= 1;
    paid.tick();
    match set_turn(turns.alloc, turns.statics, &rows, count.number, vars) {
        Ok(()) => begin_body(turns, rows, count, vars),
        Err(Raise::Fault(fault)) => Ok(Next::stop(Code::Raised(fault))),
        Err(Raise::Memory) => Err(Memory),
    }
}

// The body of a turn whose variables are set.
fn begin_body(turns: &Turns<'_>, rows: Vec<Row>, count: Count, vars: &Vars) -> M<Next>
    requires { 0 < count.left }
    ensures { let t = turns_view turns.now rows in
        IfOk result (λ n. n ≡ body_next t count.number count.left vars.now) }
{
    let Some(number) = count.number.checked_add(1) else {
        return Err(Memory);
    };
    let reads = Reads {
        alloc: turns.alloc,
        statics: turns.statics,
        vars,
    };
    let frame = Frame::Each {
        place: turns.place,
        rows,
        number,
        left: count.left - 1,
    };
    above(&reads, turns.body, frame)
}

/// The body of a `foreach` has this code.
pub(crate) fn go_each<K: Ledger>(
    turns: &Turns<'_>,
    rows: Vec<Row>,
    count: Count,
    code: Code,
    vars: &mut Vars,
    budget: &mut u32,
    paid: &mut Steps<K>,
) -> M<Next>
    ensures { let t = turns_view turns.now rows in
        let c = each_told t count.number count.left budget.old code vars.old in
        let old = tally vars.old budget.old paid.old 0 in
        let new = tally vars.new budget.new paid.new 0 in
        IfOk result (λ n. Leads c old n new) }
{
    match after_body(&code) {
        Goes::On => each_turn(turns, rows, count, vars, budget, paid),
        Goes::Over => Ok(Next::stop(Code::Value(Text::empty(turns.alloc)))),
        Goes::Ends => Ok(Next::stop(code)),
    }
}
