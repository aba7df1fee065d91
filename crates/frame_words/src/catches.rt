// The moves of `catch`.

ghost use Rattle.std.specs.Prelude.{IfOk, OnOk, option_map, slice_get, ◌+◌, ◌≡◌};
ghost use Rattle.std.specs.Option.{option_copied};
ghost use Rattle.tcl_trees.specs.TreeView.{node_view};
ghost use Rattle.frame_words.specs.Catches.{catch_in_move, catch_move, caught_in_told};
ghost use Rattle.frame_words.specs.Catches.{catch_frame, caught_told};
ghost use Rattle.frames.specs.Reads.{known_by};

use frames::{Frame, Next, Reads, is_leaf, leaf_code};
use px_bytes::{M, Memory, Raise, Steps, Text, Texts};
use rule_model::Code;
use rule_nodes::{catch_code, code_number, is_caught};
use std::alloc::Global;
use std::sync::ledger::Ledger;
use tcl_trees::Node;
use tcl_vars::Vars;

/// `catch` of a body begins.
pub fn begin_catch<K: Ledger>(reads: &Reads<'_>, body: &Node, paid: &mut Steps<K>) -> M<Next>
    ensures next { let m = catch_move (known_by reads.now) (node_view body.now) in
        IfOk result (λ n. n ≡ m.next) }
    ensures cost { let m = catch_move (known_by reads.now) (node_view body.now) in
        OnOk result (paid.new ≡ paid.old + m.cost) }
{
    paid.tick();
    if !is_leaf(body) {
        return Ok(Next::child(Frame::Caught));
    }
    let code = leaf_code(reads.alloc, reads.statics, reads.vars, body)?;
    go_caught(reads.alloc, code)
}

/// The body of a `catch` has this code.
pub fn go_caught(alloc: Global, code: Code) -> M<Next>
    ensures { IfOk result (λ n. n ≡ (caught_told code).next) }
{
    if !is_caught(&code) {
        return Ok(Next::stop(code));
    }
    match code_number(alloc, &code) {
        Ok(number) => Ok(Next::stop(Code::Value(number))),
        Err(Raise::Fault(fault)) => Ok(Next::stop(Code::Raised(fault))),
        Err(Raise::Memory) => Err(Memory),
    }
}

/// The body of a `catch` has this code, and the variable that is named gets its text.
pub fn go_caught_in(
    alloc: Global,
    statics: Option<&Vars>,
    name: &[u8],
    code: Code,
    vars: &mut Vars,
) -> M<Next>
    ensures next { let level = option_map (λ v. v.now.statics) statics.entry in
        let c = caught_in_told level name.now code vars.old in
        IfOk result (λ n. n ≡ c.move.next) }
    ensures vars { let level = option_map (λ v. v.now.statics) statics.entry in
        let c = caught_in_told level name.now code vars.old in
        OnOk result (vars.new ≡ c.vars) }
{
    if !is_caught(&code) {
        return Ok(Next::stop(code));
    }
    match catch_code(alloc, statics, name, &code, vars) {
        Ok(number) => Ok(Next::stop(Code::Value(number))),
        Err(Raise::Fault(fault)) => Ok(Next::stop(Code::Raised(fault))),
        Err(Raise::Memory) => Err(Memory),
    }
}

/// The body of a `catch` begins behind its words, of which the second is the variable's name.
pub fn begin_caught_in(
    alloc: Global,
    statics: Option<&Vars>,
    words: &Texts,
    body: &Node,
    vars: &mut Vars,
) -> M<Next>
    ensures next { let level = option_map (λ v. v.now.statics) statics.entry in
        let name = slice_get words.now 1 in
        let c = catch_in_move level (node_view body.now) name vars.old in
        IfOk result (λ n. n ≡ c.move.next) }
    ensures vars { let level = option_map (λ v. v.now.statics) statics.entry in
        let name = slice_get words.now 1 in
        let c = catch_in_move level (node_view body.now) name vars.old in
        OnOk result (vars.new ≡ c.vars) }
{
    let name = words.get(1);
    if !is_leaf(body) {
        let frame = catch_frame(name)?;
        return Ok(Next::child(frame));
    }
    let code = leaf_code(alloc, statics, vars, body)?;
    match name {
        Some(name) => go_caught_in(alloc, statics, name.as_bytes(), code, vars),
        None => go_caught(alloc, code),
    }
}

fn catch_frame(name: Option<&Text>) -> M<Frame>
    ensures { IfOk result (λ f. f ≡ catch_frame (option_copied name.entry)) }
{
    match name {
        Some(name) => {
            let name = name.copy()?;
            Ok(Frame::CaughtIn { name })
        }
        None => Ok(Frame::Caught),
    }
}
