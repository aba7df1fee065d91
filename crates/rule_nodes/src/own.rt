// Commands of the language that evaluate nothing more than their words.

ghost use Rattle.std.specs.Prelude.{IfOk, OnOk, option_map, ◌+◌, ◌≡◌};
ghost use Rattle.tcl_var_commands.specs.Changed.{ChangesFor};
ghost use Rattle.rule_model.specs.Outcome.{heard_code, reply_code};
ghost use Rattle.rule_model.specs.Commands.{error_code, return_code};
ghost use Rattle.rule_nodes.specs.Own.{coded, is_own, is_pure_call, named_code, named_ticks};
ghost use Rattle.rule_nodes.specs.Own.{own_done, own_ticks, verb_changed};

use px_bytes::{FaultKind, M, Memory, Raise, Reply, Steps, TclFault, Text, Texts};
use rule_model::Code;
use std::alloc::Global;
use std::sync::ledger::Ledger;
use tcl_commands::{pure, read_pure};
use tcl_trees::Verb;
use tcl_var_commands::{
    append_command, array_command, incr_command, info_command, lappend_command, set_command,
    unset_command,
};
use tcl_vars::Vars;

/// Whether a command is one of the language itself that evaluates nothing more: no procedure's call,
/// no expression that is read, and no command of the host.
pub fn is_own(verb: Verb, words: &Texts) -> bool
    ensures { result ≡ is_own verb words.now }
{
    match verb {
        Verb::Named | Verb::Computed => is_pure(words),
        Verb::Call | Verb::ExprOfWords => false,
        _ => true,
    }
}

fn is_pure(words: &Texts) -> bool
    ensures { result ≡ is_pure_call words.now }
{
    match words.as_slice() {
        [name, ..] => read_pure(name.as_bytes()).is_some(),
        [] => true,
    }
}

/// Does such a command with its words. Where its value isn't wanted, any may stand for it.
pub fn own_command<L: Ledger>(
    alloc: Global,
    statics: Option<&Vars>,
    verb: Verb,
    words: &Texts,
    wanted: bool,
    vars: &mut Vars,
    steps: &mut Steps<L>,
) -> M<Code>
    ensures code { let level = option_map (λ v. v.now.statics) statics.entry in
        let done = own_done level verb words.now vars.old in
        IfOk result (λ c. heard_code wanted c ≡ heard_code wanted done.code) }
    ensures vars { let level = option_map (λ v. v.now.statics) statics.entry in
        OnOk result (vars.new ≡ (own_done level verb words.now vars.old).vars) }
    ensures ticks { steps.new ≡ steps.old + own_ticks verb words.now }
{
    match verb {
        Verb::Named | Verb::Computed => named(alloc, words, steps),
        Verb::Return => returned(alloc, words),
        Verb::Break => Ok(Code::Break),
        Verb::Continue => Ok(Code::Continue),
        Verb::Error => raised(alloc, words),
        _ => coded(on_variables(alloc, statics, verb, words, wanted, vars)),
    }
}

// A pure command; with no words nothing is done.
fn named<L: Ledger>(alloc: Global, words: &Texts, steps: &mut Steps<L>) -> M<Code>
    ensures code { IfOk result (λ c. c ≡ named_code words.now) }
    ensures ticks { steps.new ≡ steps.old + named_ticks words.now }
{
    if words.len() == 0 {
        return Ok(Code::Value(Text::empty(alloc)));
    }
    coded(pure(alloc, words, steps))
}

/// A value or a fault as a code.
pub fn coded(given: Result<Text, Raise>) -> M<Code>
    ensures { result ≡ coded given }
{
    match given {
        Ok(value) => Ok(Code::Value(value)),
        Err(Raise::Fault(fault)) => Ok(Code::Raised(fault)),
        Err(Raise::Memory) => Err(Memory),
    }
}

/// A reply as a code.
pub fn code_of_reply(reply: &Reply) -> M<Code>
    ensures { IfOk result (λ c. c ≡ reply_code reply.now) }
{
    Ok(match reply {
        Reply::Ok(text) => Code::Value(text.copy()?),
        Reply::Fault(fault) => Code::Raised(TclFault {
            kind: fault.kind,
            text: fault.text.copy()?,
        }),
    })
}

// `return` and `return TEXT`.
fn returned(alloc: Global, words: &Texts) -> M<Code>
    ensures { IfOk result (λ c. c ≡ return_code words.now) }
{
    Ok(match words.as_slice() {
        [_] => Code::Return(Text::empty(alloc)),
        [_, text] => Code::Return(text.copy()?),
        _ => Code::Raised(TclFault::wrong_arity(alloc, b"return")?),
    })
}

// `error TEXT`.
fn raised(alloc: Global, words: &Texts) -> M<Code>
    ensures { IfOk result (λ c. c ≡ error_code words.now) }
{
    Ok(match words.as_slice() {
        [_, text] => Code::Raised(TclFault {
            kind: FaultKind::Raised,
            text: text.copy()?,
        }),
        _ => Code::Raised(TclFault::wrong_arity(alloc, b"error")?),
    })
}

// A command on variables.
fn on_variables(
    alloc: Global,
    statics: Option<&Vars>,
    verb: Verb,
    words: &Texts,
    wanted: bool,
    vars: &mut Vars,
) -> Result<Text, Raise>
    ensures { let level = option_map (λ v. v.now.statics) statics.entry in
        ChangesFor wanted (verb_changed level verb words.now vars.old) result vars.new }
{
    match verb {
        Verb::Set => set_command(alloc, statics, words, vars),
        Verb::Unset => unset_command(alloc, statics, words, vars),
        Verb::Incr => incr_command(alloc, statics, words, vars),
        Verb::Append => append_command(alloc, statics, words, vars, wanted),
        Verb::Lappend => lappend_command(alloc, statics, words, vars, wanted),
        Verb::Array => array_command(alloc, statics, words, vars),
        Verb::Info => info_command(alloc, statics, words, vars),
        _ => Ok(Text::empty(alloc)),
    }
}
