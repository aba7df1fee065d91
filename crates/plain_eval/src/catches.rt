// `catch`.

ghost use Rattle.std.specs.Prelude.{option_map, true, ◌≡◌};
ghost use Rattle.std.specs.Option.{option_copied};
ghost use Rattle.tcl_trees.specs.Tree.{catch, catch_in};
ghost use Rattle.tcl_trees.specs.TreeView.{node_view};
ghost use Rattle.plain_eval.specs.End.{Caught, caught_code, ended};
ghost use Rattle.plain_eval.specs.Ran.{Evaluates};

use crate::context::Context;
use crate::host::PlainHost;
use crate::run::{End, Halts, Run};
use crate::tree::eval_tree;
use crate::words::eval_words;
use px_bytes::Text;
use rule_model::Code;
use rule_nodes::{catch_code, code_number, is_caught};
use std::slice;
use tcl_trees::Node;

/// The number of the code of a body.
#[inline(never)]
#[cycle(plain)]
pub(crate) fn eval_catch<H: PlainHost>(
    context: &Context<'_, H::Env>,
    levels: usize,
    body: &Node,
    run: &mut Run<'_>,
    host: &mut H,
) -> Halts
    ensures ended { result ≡ ended run.new.end }
    ensures ran { let tree = catch (node_view body.now) in
        Evaluates H.table context.now true tree run.old host.old run.new host.new }
{
    let _ = eval_tree(context, levels, body, false, run, host);
    caught(context, None, run)
}

/// The same, where the variable that is named gets the text of the code.
#[inline(never)]
#[cycle(plain)]
pub(crate) fn eval_catch_in<H: PlainHost>(
    context: &Context<'_, H::Env>,
    levels: usize,
    body: &Node,
    name: &Node,
    run: &mut Run<'_>,
    host: &mut H,
) -> Halts
    ensures ended { result ≡ ended run.new.end }
    ensures ran { let tree = catch_in (node_view body.now) (node_view name.now) in
        Evaluates H.table context.now true tree run.old host.old run.new host.new }
{
    let name = slice::from_ref(name);
    let names = eval_words(context, levels, b"catch".len(), name, run, host)?;
    let _ = eval_tree(context, levels, body, true, run, host);
    caught(context, names.get(0), run)
}

// The number of the code that was noted, where a `catch` takes it.
#[inline(never)]
fn caught<E>(context: &Context<'_, E>, name: Option<&Text>, run: &mut Run<'_>) -> Halts
    ensures ended { result ≡ ended run.new.end }
    ensures caught { let level = option_map (λ v. v.now.statics) context.now.statics in
        Caught level (option_copied name.entry) run.old run.new }
{
    let Some(code) = caught_code(&run.end) else {
        return run.ended();
    };
    let number = match name {
        Some(name) => {
            let name = name.as_bytes();
            catch_code(context.alloc, context.statics, name, code, &mut run.vars)
        }
        None => code_number(context.alloc, code),
    };
    run.settle(number)
}

fn caught_code(end: &End) -> Option<&Code>
    ensures { option_copied result ≡ caught_code end.now }
{
    match end {
        End::Done(code) => is_caught(code).then_some(code),
        End::Waits(_) | End::Memory => None,
    }
}
