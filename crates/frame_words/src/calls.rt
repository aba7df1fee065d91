// The moves of a call.

ghost use Rattle.std.specs.Prelude.{IfOk, OnOk, ◌≡◌};
ghost use Rattle.tcl_trees.specs.Procedures.{procs_view};
ghost use Rattle.tcl_trees.specs.TreeView.{node_view};
ghost use Rattle.rule_nodes.specs.Calls.{call_view};
ghost use Rattle.frame_words.specs.CallParts.{caller_view};
ghost use Rattle.frame_words.specs.Calls.{body_move, bound_move, call_move, called_told};
ghost use Rattle.frame_words.specs.Calls.{place_in};

use frames::{Frame, Next, Room, is_leaf, leaf_code};
use px_bytes::{M, Memory, Raise, Texts};
use rule_model::Code;
use rule_nodes::{Call, bound, code_left, set_parameters, too_deep};
use std::alloc::Global;
use tcl_trees::{Node, Procs};
use tcl_vars::Vars;

/// What stays over a call: what may nest where it stands, and whether its value is heard.
#[derive(Clone, Copy)]
pub struct Caller<'a> {
    pub alloc: Global,
    pub statics: Option<&'a Vars>,
    pub procs: &'a Procs,
    pub room: Room,
    pub wanted: bool,
}

/// `call` with these words begins the procedure's body, among its parameters.
pub fn enter(caller: &Caller<'_>, words: &Texts, vars: &mut Vars) -> M<Next>
    ensures next { let c = call_move (caller_view caller.now) words.now vars.old in
        IfOk result (λ n. n ≡ c.move.next) }
    ensures vars { let c = call_move (caller_view caller.now) words.now vars.old in
        OnOk result (vars.new ≡ c.vars) }
{
    match bound(caller.alloc, caller.procs, words) {
        Ok(call) => enter_call(caller, place_in(caller.procs, words), &call, vars),
        Err(Raise::Fault(fault)) => Ok(Next::stop(Code::Raised(fault))),
        Err(Raise::Memory) => Err(Memory),
    }
}

// The place of the procedure that the words of a call name, which is there.
fn place_in(procs: &Procs, words: &Texts) -> usize
    ensures { result ≡ place_in (procs_view procs.now) words.now }
{
    match words.as_slice() {
        [_, name, ..] => procs.place(name.as_bytes()).unwrap_or(0),
        _ => 0,
    }
}

// The variables of a procedure with these values, and its body.
fn enter_call(caller: &Caller<'_>, place: usize, call: &Call<'_>, vars: &mut Vars) -> M<Next>
    ensures next { let b = call_view call.now in
        let c = bound_move (caller_view caller.now) place b vars.old in
        IfOk result (λ n. n ≡ c.move.next) }
    ensures vars { let b = call_view call.now in
        let c = bound_move (caller_view caller.now) place b vars.old in
        OnOk result (vars.new ≡ c.vars) }
{
    vars.enter_proc()?;
    match set_parameters(caller.alloc, caller.statics, call, vars) {
        Ok(()) => enter_body(caller, place, &call.procedure.body, vars),
        Err(Raise::Fault(fault)) => go_called(caller.alloc, Code::Raised(fault), vars),
        Err(Raise::Memory) => Err(Memory),
    }
}

// A procedure's body, among its parameters.
fn enter_body(caller: &Caller<'_>, place: usize, body: &Node, vars: &mut Vars) -> M<Next>
    ensures next { let c = body_move (caller_view caller.now) place (node_view body.now) vars.old in
        IfOk result (λ n. n ≡ c.move.next) }
    ensures vars { let c = body_move (caller_view caller.now) place (node_view body.now) vars.old in
        OnOk result (vars.new ≡ c.vars) }
{
    if caller.room.calls == 0 {
        let fault = too_deep(caller.alloc)?;
        return go_called(caller.alloc, Code::Raised(fault), vars);
    }
    if is_leaf(body) {
        let code = leaf_code(caller.alloc, caller.statics, vars, body)?;
        return go_called(caller.alloc, code, vars);
    }
    let room = Room {
        calls: caller.room.calls - 1,
        ..caller.room
    };
    Ok(Next::child(Frame::Called {
        procedure: place,
        room,
        wanted: caller.wanted,
    }))
}

/// A procedure's body ends with this code.
pub fn go_called(alloc: Global, code: Code, vars: &mut Vars) -> M<Next>
    ensures next { IfOk result (λ n. n ≡ (called_told code vars.old).move.next) }
    ensures vars { OnOk result (vars.new ≡ (called_told code vars.old).vars) }
{
    vars.leave_proc();
    let code = code_left(alloc, code)?;
    Ok(Next::stop(code))
}
