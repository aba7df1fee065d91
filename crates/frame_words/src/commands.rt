// What a command does with its words.

ghost use Rattle.std.specs.Prelude.{IfOk, List, ◌+◌, ◌≡◌, ◌≢◌, ◌≤◌};
ghost use Rattle.rule_model.specs.Host.{Effect};
ghost use Rattle.frame_words.specs.Commands.{Answers, Finished, next_after};
ghost use Rattle.frames.specs.Given.{setting_of};

use frames::{Context, Host, Mode, Next};
use px_bytes::{HostAnswer, M, Memory, Steps, Texts};
use rule_model::Code;
use rule_nodes::{is_own, own_command};
use std::sync::ledger::Ledger;
use tcl_trees::Verb;
use tcl_vars::Vars;

/// How a command ends, or the shared call that it waits for.
#[derive(Drop)]
pub enum Done {
    Ends(Code),
    Asks(Texts),
}

// Calls a command of the host.
#[tactic(auto, using(crate::proofs::InCommands::answers_value, crate::proofs::InCommands::answers_fault, crate::proofs::InCommands::answers_ask))]
#[inline(always)]
fn call_host<H: Host, L: Ledger>(
    context: &Context<'_, H::Env>,
    words: &Texts,
    host: &mut H,
    steps: &mut Steps<L>,
) -> M<Done>
    ensures did { let step = H.table context.now.env.now (H.seen host.old) words.now in
        let made : List Effect → Type 0 = λ es. H.made host.old es host.new in
        IfOk result (λ d. Answers step (H.seen host.new) d made) }
    ensures ticks { steps.new ≡ steps.old + 1 }
{
    steps.tick();
    match host.call(context.alloc, context.env, words) {
        HostAnswer::Value(value) => Ok(Done::Ends(Code::Value(value))),
        HostAnswer::Fault(fault) => Ok(Done::Ends(Code::Raised(fault))),
        HostAnswer::Ask(call) => Ok(Done::Asks(call)),
        HostAnswer::Memory => Err(Memory),
    }
}

/// A command that evaluates nothing more than its words: one of the language, and else one of the
/// host.
#[inline(always)]
pub fn by_words<H: Host, L: Ledger>(
    context: &Context<'_, H::Env>,
    verb: Verb,
    words: &Texts,
    wanted: bool,
    vars: &mut Vars,
    host: &mut H,
    steps: &mut Steps<L>,
) -> M<Done>
    requires call { verb ≢ Verb.Call }
    requires read { verb ≢ Verb.ExprOfWords }
    ensures did { let g = setting_of H.table context.now in
        let made : List Effect → Type 0 = λ es. H.made host.old es host.new in
        let old = H.seen host.old in
        let new = H.seen host.new in
        IfOk result (λ d. Finished g wanted verb words.now vars.old vars.new old new d made) }
    ensures ticks { steps.new ≤ steps.old + 1 }
    ensures grows { steps.old ≤ steps.new }
{
    if !is_own(verb, words) {
        let done = call_host(context, words, host, steps)?;
        return Ok(done);
    }
    let (alloc, statics) = (context.alloc, context.statics);
    let code = own_command(alloc, statics, verb, words, wanted, vars, steps)?;
    Ok(Done::Ends(code))
}

/// Where a node stands whose command is done.
#[inline(always)]
pub fn next_after(done: Done) -> Next
    ensures { result ≡ next_after done }
{
    match done {
        Done::Ends(code) => Next::stop(code),
        Done::Asks(call) => Next {
            frame: None,
            mode: Mode::Asked(call),
        },
    }
}
