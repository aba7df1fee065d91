// `if` and `?:`.

ghost use Rattle.std.specs.Prelude.{ℕ, ◌≡◌};
ghost use Rattle.tcl_trees.specs.Tree.{Tree};
ghost use Rattle.plain_eval.specs.End.{ended};
ghost use Rattle.plain_eval.specs.Ran.{first_of};
ghost use Rattle.plain_eval.specs.Stand.{Ran, stand};

use crate::context::Context;
use crate::expressions::eval_test;
use crate::host::PlainHost;
use crate::run::{Halts, Run};
use crate::tree::eval_tree;
use tcl_trees::Node;

/// The value beside the first condition that holds, or else the last.
#[inline(never)]
#[cycle(plain)]
pub(crate) fn eval_branches<H: PlainHost>(
    context: &Context<'_, H::Env>,
    levels: usize,
    values: &[(Node, Node)],
    last: &Node,
    wanted: bool,
    run: &mut Run<'_>,
    host: &mut H,
) -> Halts
    ensures ended { result ≡ ended run.new.end }
    ensures ran { (n : ℕ) (p q r : Tree → ℕ) →
        let whole = first_of H.table context.now n p q r values.now last.now in
        Ran wanted whole (stand run.old host.old) run.new.end (stand run.new host.new) }
{
    for (condition, value) in values {
        if eval_test(context, levels, condition, run, host)? {
            return eval_tree(context, levels, value, wanted, run, host);
        }
    }
    eval_tree(context, levels, last, wanted, run, host)
}
