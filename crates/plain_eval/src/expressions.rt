// The evaluation of expressions.

ghost use Rattle.std.specs.Prelude.{Err, IfErr, true, ℕ, ◌≡◌};
ghost use Rattle.tcl_trees.specs.Tree.{Tree, expr, operands_of, prefixed, row};
ghost use Rattle.tcl_trees.specs.TreeView.{node_view, operands_view};
ghost use Rattle.plain_eval.specs.End.{ended};
ghost use Rattle.plain_eval.specs.Ran.{Evaluates, test_of};
ghost use Rattle.plain_eval.specs.Stand.{Gave, stand};

use crate::context::Context;
use crate::host::PlainHost;
use crate::run::{Halted, Halts, Run};
use crate::tree::eval_tree;
use crate::uncounted::{both_text, prefixed_text};
use rule_nodes::{decide, truth_of, whole_text};
use tcl_expr::{Joint, Op1};
use tcl_trees::Node;

/// Whether a condition holds.
#[inline(never)]
#[cycle(plain)]
pub(crate) fn eval_test<H: PlainHost>(
    context: &Context<'_, H::Env>,
    levels: usize,
    condition: &Node,
    run: &mut Run<'_>,
    host: &mut H,
) -> Result<bool, Halted>
    ensures halts { IfErr result (λ h. ended run.new.end ≡ Err h) }
    ensures gave { (p : Tree → ℕ) (k : ℕ) →
        let test = test_of H.table context.now p k condition.now in
        Gave test (stand run.old host.old) result run.new.end (stand run.new host.new) }
{
    eval_tree(context, levels, condition, true, run, host)?;
    let holds = truth_of(context.alloc, run.value());
    run.kept(holds)
}

/// The expression of an `expr`.
#[inline(never)]
#[cycle(plain)]
pub(crate) fn eval_expr<H: PlainHost>(
    context: &Context<'_, H::Env>,
    levels: usize,
    expression: &Node,
    run: &mut Run<'_>,
    host: &mut H,
) -> Halts
    ensures ended { result ≡ ended run.new.end }
    ensures ran { let tree = expr (node_view expression.now) in
        Evaluates H.table context.now true tree run.old host.old run.new host.new }
{
    eval_tree(context, levels, expression, true, run, host)?;
    let value = run.take(context.alloc);
    run.settle(whole_text(context.alloc, value))
}

/// Operators before an operand.
#[inline(never)]
#[cycle(plain)]
pub(crate) fn eval_prefixed<H: PlainHost>(
    context: &Context<'_, H::Env>,
    levels: usize,
    ops: &[Op1],
    operand: &Node,
    run: &mut Run<'_>,
    host: &mut H,
) -> Halts
    ensures ended { result ≡ ended run.new.end }
    ensures ran { let tree = prefixed ops.now (node_view operand.now) in
        Evaluates H.table context.now true tree run.old host.old run.new host.new }
{
    eval_tree(context, levels, operand, true, run, host)?;
    let value = run.take(context.alloc);
    run.settle(prefixed_text(context.alloc, ops, value))
}

/// The operands of a row, from the left, up to one that decides it.
#[inline(never)]
#[cycle(plain)]
pub(crate) fn eval_row<H: PlainHost>(
    context: &Context<'_, H::Env>,
    levels: usize,
    first: &Node,
    rest: &[(Joint, Node)],
    run: &mut Run<'_>,
    host: &mut H,
) -> Halts
    ensures ended { result ≡ ended run.new.end }
    ensures ran { let tree = row (node_view first.now) (operands_of (operands_view rest.now)) in
        Evaluates H.table context.now true tree run.old host.old run.new host.new }
{
    eval_tree(context, levels, first, true, run, host)?;
    for (joint, operand) in rest {
        let left = run.take(context.alloc);
        let decided = decide(context.alloc, *joint, left.as_bytes());
        if let Some(value) = run.kept(decided)? {
            return run.settle(Ok(value));
        }
        eval_tree(context, levels, operand, true, run, host)?;
        let value = both_text(context.alloc, *joint, &left, run.value());
        run.settle(value)?;
    }
    Ok(())
}
