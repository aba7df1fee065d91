// `switch`.

ghost use Rattle.std.specs.Prelude.{drop, option_and_then, option_map, ◌≡◌};
ghost use Rattle.tcl_trees.specs.Tree.{switch, trees_of};
ghost use Rattle.tcl_trees.specs.TreeView.{nodes_view};
ghost use Rattle.rule_nodes.specs.Choice.{first_body_of};
ghost use Rattle.plain_eval.specs.End.{ended};
ghost use Rattle.plain_eval.specs.Ran.{Evaluates};

use crate::context::Context;
use crate::host::PlainHost;
use crate::run::{Halts, Run};
use crate::tree::eval_tree;
use crate::words::eval_words;
use rule_nodes::{first_body, hit_of};
use tcl_trees::Node;

/// Options, the text and the patterns, and then the body of the case that is hit.
#[inline(never)]
#[cycle(plain)]
pub(crate) fn eval_switch<H: PlainHost>(
    context: &Context<'_, H::Env>,
    levels: usize,
    front: usize,
    words: &[Node],
    bodies: &[Node],
    wanted: bool,
    run: &mut Run<'_>,
    host: &mut H,
) -> Halts
    ensures ended { result ≡ ended run.new.end }
    ensures ran { let words = trees_of (nodes_view words.now) in
        let tree = switch front words (trees_of (nodes_view bodies.now)) in
        Evaluates H.table context.now wanted tree run.old host.old run.new host.new }
{
    let words = eval_words(context, levels, b"switch".len(), words, run, host)?;
    let hit = hit_of(context.alloc, front, words.as_slice());
    let number = run.kept(hit)?;
    match body_at(bodies, number) {
        Some(body) => eval_tree(context, levels, body, wanted, run, host),
        None => run.nothing(context.alloc),
    }
}

// The body of the case of this number, where one is hit.
fn body_at(bodies: &[Node], number: Option<usize>) -> Option<&Node>
    ensures { let body = option_and_then (λ k. first_body_of (drop k bodies.now)) number in
        option_map (λ n. n.now) result ≡ body }
{
    first_body(bodies, number?)
}
