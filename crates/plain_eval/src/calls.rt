// Trees that aren't part of the tree: a procedure's body, and an expression that is read when it
// runs.

ghost use Rattle.std.specs.Prelude.{true, ◌≡◌};
ghost use Rattle.rule_model.specs.Commands.{call_command, expression_of, expression_read};
ghost use Rattle.plain_eval.specs.End.{Leaves, ended};
ghost use Rattle.plain_eval.specs.Ran.{inside_of};
ghost use Rattle.plain_eval.specs.Stand.{Ran, inner_of, setting_of, stand};

use crate::context::{Context, Room};
use crate::host::PlainHost;
use crate::run::{End, Halted, Halts, Run};
use crate::tree::eval_tree;
use expr_of_words::read_expression;
use px_bytes::Texts;
use rule_nodes::{Call, bound, code_left, set_parameters, too_deep, whole_text};
use std::alloc::Global;
use std::mem;

/// `call NAME ..`
#[inline(never)]
#[cycle(plain)]
pub(crate) fn eval_call<H: PlainHost>(
    context: &Context<'_, H::Env>,
    levels: usize,
    words: &Texts,
    wanted: bool,
    run: &mut Run<'_>,
    host: &mut H,
) -> Halts
    ensures ended { result ≡ ended run.new.end }
    ensures ran { let g = setting_of H.table context.now in
        let call = call_command g (inner_of H.table context.now) words.now in
        Ran wanted call (stand run.old host.old) run.new.end (stand run.new host.new) }
{
    let call = run.kept(bound(context.alloc, context.procs, words))?;
    if run.vars.enter_proc().is_err() {
        return Err(run.no_memory());
    }
    let _ = eval_procedure(context, levels, &call, wanted, run, host);
    leave(context.alloc, run)
}

// A procedure whose parameters have these values.
#[inline(never)]
#[cycle(plain)]
fn eval_procedure<H: PlainHost>(
    context: &Context<'_, H::Env>,
    levels: usize,
    call: &Call<'_>,
    wanted: bool,
    run: &mut Run<'_>,
    host: &mut H,
) -> Halts
    ensures ended { result ≡ ended run.new.end }
    ensures ran { let inside = inside_of H.table context.now call.now in
        Ran wanted inside (stand run.old host.old) run.new.end (stand run.new host.new) }
{
    let set = set_parameters(context.alloc, context.statics, call, &mut run.vars);
    run.kept(set)?;
    let Some(calls) = context.room.calls.checked_sub(1) else {
        return Err(run.raise(too_deep(context.alloc)));
    };
    let room = Room {
        calls,
        ..context.room
    };
    let inner = Context { room, ..*context };
    eval_tree(&inner, levels, &call.procedure.body, wanted, run, host)
}

// A procedure's body ended: its variables go.
fn leave(alloc: Global, run: &mut Run<'_>) -> Halts
    ensures ended { result ≡ ended run.new.end }
    ensures left { Leaves run.old.end run.old run.new }
{
    match mem::replace(&mut run.end, End::Memory) {
        End::Done(code) => {
            run.vars.leave_proc();
            run.note(code_left(alloc, code))
        }
        end => {
            run.end = end;
            Err(Halted)
        }
    }
}

/// `expr` whose words are joined by blanks and read.
#[inline(never)]
#[cycle(plain)]
pub(crate) fn eval_expression<H: PlainHost>(
    context: &Context<'_, H::Env>,
    levels: usize,
    words: &Texts,
    run: &mut Run<'_>,
    host: &mut H,
) -> Halts
    ensures ended { result ≡ ended run.new.end }
    ensures ran { let read = expression_of words.now in
        let expression = expression_read (inner_of H.table context.now) read in
        Ran true expression (stand run.old host.old) run.new.end (stand run.new host.new) }
{
    let tree = run.kept(read_expression(context.alloc, words))?;
    let Some(expressions) = context.room.expressions.checked_sub(1) else {
        return Err(run.raise(too_deep(context.alloc)));
    };
    let room = Room {
        expressions,
        ..context.room
    };
    let inner = Context { room, ..*context };
    eval_tree(&inner, levels, &tree, true, run, host)?;
    let value = run.take(context.alloc);
    run.settle(whole_text(context.alloc, value))
}
