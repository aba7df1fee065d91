// Commands that evaluate all their words first.

ghost use Rattle.std.specs.Prelude.{true, ◌≡◌, ◌≢◌};
ghost use Rattle.tcl_trees.specs.Tree.{command, trees_of};
ghost use Rattle.tcl_trees.specs.TreeView.{nodes_view};
ghost use Rattle.rule_model.specs.Outcome.{answered};
ghost use Rattle.plain_eval.specs.End.{Asked, ended};
ghost use Rattle.plain_eval.specs.Ran.{Evaluates, command_of};
ghost use Rattle.plain_eval.specs.Stand.{Ran, stand};

use crate::calls::{eval_call, eval_expression};
use crate::context::Context;
use crate::host::PlainHost;
use crate::run::{End, Halted, Halts, Run};
use crate::uncounted::own_code;
use crate::words::eval_words;
use px_bytes::{HostAnswer, Texts};
use rule_model::Code;
use rule_nodes::{code_of_reply, is_own};
use tcl_trees::{Node, Verb};

/// The words of a command, and then what it does with them.
#[inline(never)]
#[cycle(plain)]
pub(crate) fn eval_command<H: PlainHost>(
    context: &Context<'_, H::Env>,
    levels: usize,
    verb: Verb,
    words: &[Node],
    wanted: bool,
    run: &mut Run<'_>,
    host: &mut H,
) -> Halts
    ensures ended { result ≡ ended run.new.end }
    ensures ran { let tree = command verb (trees_of (nodes_view words.now)) in
        Evaluates H.table context.now wanted tree run.old host.old run.new host.new }
{
    let words = eval_words(context, levels, 0, words, run, host)?;
    match verb {
        Verb::Call => eval_call(context, levels, &words, wanted, run, host),
        Verb::ExprOfWords => eval_expression(context, levels, &words, run, host),
        _ => by_words(context, verb, &words, wanted, run, host),
    }
}

// A command of the language that evaluates nothing more, and else one of the host.
#[inline(never)]
fn by_words<H: PlainHost>(
    context: &Context<'_, H::Env>,
    verb: Verb,
    words: &Texts,
    wanted: bool,
    run: &mut Run<'_>,
    host: &mut H,
) -> Halts
    requires call { verb ≢ Verb.Call }
    requires read { verb ≢ Verb.ExprOfWords }
    ensures ended { result ≡ ended run.new.end }
    ensures ran { let done = command_of H.table context.now verb words.now in
        Ran wanted done (stand run.old host.old) run.new.end (stand run.new host.new) }
{
    if !is_own(verb, words) {
        return call_host(context, words, run, host);
    }
    let (alloc, statics) = (context.alloc, context.statics);
    let code = own_code(alloc, statics, verb, words, wanted, &mut run.vars);
    run.note(code)
}

// Calls a command of the host.
#[inline(never)]
fn call_host<H: PlainHost>(
    context: &Context<'_, H::Env>,
    words: &Texts,
    run: &mut Run<'_>,
    host: &mut H,
) -> Halts
    ensures ended { result ≡ ended run.new.end }
    ensures ran { let step = H.table context.now.env.now host.old words.now in
        Ran true (answered step) (stand run.old host.old) run.new.end (stand run.new host.new) }
{
    match host.call(context.alloc, context.env, words) {
        HostAnswer::Value(value) => run.note(Ok(Code::Value(value))),
        HostAnswer::Fault(fault) => run.note(Ok(Code::Raised(fault))),
        HostAnswer::Ask(call) => take_reply(call, run),
        HostAnswer::Memory => Err(run.no_memory()),
    }
}

// The reply to a shared call, which is taken, or a wait for one.
fn take_reply(call: Texts, run: &mut Run<'_>) -> Halts
    ensures ended { result ≡ ended run.new.end }
    ensures same { run.new ≡ record run.old { left = run.new.left; end = run.new.end } }
    ensures asked { Asked run.old.left.now call run.new.end run.new.left.now }
{
    let Some((reply, rest)) = run.left.split_first() else {
        run.end = End::Waits(call);
        return Err(Halted);
    };
    run.left = rest;
    run.note(code_of_reply(reply))
}
