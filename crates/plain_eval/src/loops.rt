// Loops.

ghost use Rattle.std.specs.Prelude.{suc, true, ℕ, ◌≡◌};
ghost use Rattle.tcl_trees.specs.Tree.{each, trees_of};
ghost use Rattle.tcl_trees.specs.TreeView.{node_view, nodes_view};
ghost use Rattle.rule_nodes.specs.Goes.{body_goes, next_goes};
ghost use Rattle.plain_eval.specs.End.{after_end, ended};
ghost use Rattle.plain_eval.specs.Ran.{Evaluates, body_of, loop_tree, turns_of};
ghost use Rattle.plain_eval.specs.Stand.{Gave, Went, stand};

use crate::context::Context;
use crate::expressions::eval_test;
use crate::host::PlainHost;
use crate::run::{End, Halts, Run};
use crate::tree::eval_tree;
use crate::words::eval_words;
use px_bytes::TclFault;
use rule_nodes::{Goes, after_body, after_next, most_turns, rows_of, set_turn};
use tcl_trees::Node;

/// A condition, what comes after each turn, and the body.
#[derive(Clone, Copy)]
pub(crate) struct Loop<'a> {
    pub(crate) test: &'a Node,
    pub(crate) next: &'a Node,
    pub(crate) body: &'a Node,
}

/// What starts a loop, and then no more turns than there is budget.
#[inline(never)]
#[cycle(plain)]
pub(crate) fn eval_loop<H: PlainHost>(
    context: &Context<'_, H::Env>,
    levels: usize,
    start: &Node,
    parts: &Loop<'_>,
    run: &mut Run<'_>,
    host: &mut H,
) -> Halts
    ensures ended { result ≡ ended run.new.end }
    ensures ran { let tree = loop_tree start.now parts.now in
        Evaluates H.table context.now true tree run.old host.old run.new host.new }
{
    eval_tree(context, levels, start, false, run, host)?;
    for _ in 0..run.budget {
        if eval_turn(context, levels, parts, run, host).is_err() {
            return run.ended();
        }
    }
    if eval_test(context, levels, parts.test, run, host)? {
        return Err(run.raise(TclFault::budget_spent(context.alloc)));
    }
    run.nothing(context.alloc)
}

// A turn of a loop: whether the loop goes on; if it doesn't, its end was noted.
#[inline(never)]
#[cycle(plain)]
fn eval_turn<H: PlainHost>(
    context: &Context<'_, H::Env>,
    levels: usize,
    parts: &Loop<'_>,
    run: &mut Run<'_>,
    host: &mut H,
) -> Halts
    ensures { (n : ℕ) → let turns = turns_of H.table context.now parts.now in
        let before = stand run.old host.old in
        let after = stand run.new host.new in
        Went true (turns (suc n)) before result run.new.end (λ on. turns n) after }
{
    if !eval_test(context, levels, parts.test, run, host)? {
        return run.go_on(context.alloc, Goes::Over);
    }
    run.spend(context.alloc)?;
    eval_body(context, levels, parts.body, run, host)?;
    let _ = eval_tree(context, levels, parts.next, false, run, host);
    let goes = goes_after_next(&run.end);
    run.go_on(context.alloc, goes)
}

// A body of a loop: whether the loop goes on; if it doesn't, its end was noted.
#[cycle(plain)]
fn eval_body<H: PlainHost>(
    context: &Context<'_, H::Env>,
    levels: usize,
    body: &Node,
    run: &mut Run<'_>,
    host: &mut H,
) -> Halts
    ensures { (k : ℕ) → let body = body_of H.table context.now k body.now in
        Gave body (stand run.old host.old) result run.new.end (stand run.new host.new) }
{
    let _ = eval_tree(context, levels, body, false, run, host);
    let goes = goes_after_body(&run.end);
    run.go_on(context.alloc, goes)
}

// What a loop does after the end of its body, which was noted.
fn goes_after_body(end: &End) -> Goes
    ensures { result ≡ after_end body_goes end.now }
{
    match end {
        End::Done(code) => after_body(code),
        End::Waits(_) | End::Memory => Goes::Ends,
    }
}

// The same after the end of what comes after each turn.
fn goes_after_next(end: &End) -> Goes
    ensures { result ≡ after_end next_goes end.now }
{
    match end {
        End::Done(code) => after_next(code),
        End::Waits(_) | End::Memory => Goes::Ends,
    }
}

/// A `foreach`: its names and lists, and then its turns.
#[inline(never)]
#[cycle(plain)]
pub(crate) fn eval_each<H: PlainHost>(
    context: &Context<'_, H::Env>,
    levels: usize,
    words: &[Node],
    body: &Node,
    run: &mut Run<'_>,
    host: &mut H,
) -> Halts
    ensures ended { result ≡ ended run.new.end }
    ensures ran { let tree = each (trees_of (nodes_view words.now)) (node_view body.now) in
        Evaluates H.table context.now true tree run.old host.old run.new host.new }
{
    let lists = eval_words(context, levels, b"foreach".len(), words, run, host)?;
    let rows = run.kept(rows_of(context.alloc, &lists))?;
    for number in 0..most_turns(&rows) {
        run.spend(context.alloc)?;
        let set = set_turn(context.alloc, context.statics, &rows, number, &mut run.vars);
        run.kept(set)?;
        if eval_body(context, levels, body, run, host).is_err() {
            return run.ended();
        }
    }
    run.nothing(context.alloc)
}
