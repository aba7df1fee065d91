// The evaluation of a tree by recursion on it. The functions of one cycle hand on the same
// arguments: what stays, how many trees may still stand inside one another, the tree or its parts,
// whether its value is wanted, and what changes.

ghost use Rattle.std.specs.Prelude.{◌≡◌};
ghost use Rattle.tcl_trees.specs.Tree.{script, trees_of};
ghost use Rattle.tcl_trees.specs.TreeView.{node_view, nodes_view};
ghost use Rattle.plain_eval.specs.End.{ended};
ghost use Rattle.plain_eval.specs.Ran.{Evaluates};

use crate::branches::eval_branches;
use crate::catches::{eval_catch, eval_catch_in};
use crate::choice::eval_switch;
use crate::commands::eval_command;
use crate::context::Context;
use crate::expressions::{eval_expr, eval_prefixed, eval_row};
use crate::host::PlainHost;
use crate::loops::{Loop, eval_each, eval_loop};
use crate::run::{Halts, Run};
use crate::words::{eval_element, eval_word};
use rule_nodes::{literal, variable};
use tcl_trees::Node;

/// Evaluates a tree: whether it has a value.
#[inline(never)]
#[cycle(plain)]
pub(crate) fn eval_tree<H: PlainHost>(
    context: &Context<'_, H::Env>,
    levels: usize,
    tree: &Node,
    wanted: bool,
    run: &mut Run<'_>,
    host: &mut H,
) -> Halts
    ensures ended { result ≡ ended run.new.end }
    ensures ran { let tree = node_view tree.now in
        Evaluates H.table context.now wanted tree run.old host.old run.new host.new }
{
    let Some(levels) = levels.checked_sub(1) else {
        return Err(run.no_memory());
    };
    match tree {
        Node::Plain(text) => run.settle(literal(text)),
        Node::Variable(name) => {
            let value = variable(context.alloc, context.statics, &run.vars, name);
            run.settle(value)
        }
        Node::Element(name, index) => eval_element(context, levels, name, index, run, host),
        Node::Word(parts) => eval_word(context, levels, parts, run, host),
        Node::Script(commands) => eval_script(context, levels, commands, wanted, run, host),
        Node::Command(verb, words) => {
            eval_command(context, levels, *verb, words, wanted, run, host)
        }
        Node::Expr(expression) => eval_expr(context, levels, expression, run, host),
        Node::If(values, last) => {
            eval_branches(context, levels, values, last, wanted, run, host)
        }
        Node::Loop {
            start,
            test,
            next,
            body,
        } => {
            let parts = Loop { test, next, body };
            eval_loop(context, levels, start, &parts, run, host)
        }
        Node::Foreach { words, body } => eval_each(context, levels, words, body, run, host),
        Node::Switch {
            front,
            words,
            bodies,
        } => eval_switch(context, levels, *front, words, bodies, wanted, run, host),
        Node::Catch(body) => eval_catch(context, levels, body, run, host),
        Node::CatchIn { body, name } => eval_catch_in(context, levels, body, name, run, host),
        Node::NextBody => run.nothing(context.alloc),
        Node::Prefixed(ops, operand) => eval_prefixed(context, levels, ops, operand, run, host),
        Node::Row(first, rest) => eval_row(context, levels, first, rest, run, host),
        Node::Choice(values, last) => {
            eval_branches(context, levels, values, last, wanted, run, host)
        }
    }
}

// Commands one after another, each with a unit of budget.
#[inline(never)]
#[cycle(plain)]
fn eval_script<H: PlainHost>(
    context: &Context<'_, H::Env>,
    levels: usize,
    commands: &[Node],
    wanted: bool,
    run: &mut Run<'_>,
    host: &mut H,
) -> Halts
    ensures ended { result ≡ ended run.new.end }
    ensures ran { let tree = script (trees_of (nodes_view commands.now)) in
        Evaluates H.table context.now wanted tree run.old host.old run.new host.new }
{
    let Some((last, front)) = commands.split_last() else {
        return run.nothing(context.alloc);
    };
    for command in front {
        run.spend(context.alloc)?;
        eval_tree(context, levels, command, false, run, host)?;
    }
    run.spend(context.alloc)?;
    eval_tree(context, levels, last, wanted, run, host)
}
