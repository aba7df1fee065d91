// The values of words, and of the pieces of a word.

ghost use Rattle.std.specs.Prelude.{Err, IfErr, List, length, sum_by, true, ℕ, ◌≡◌, ◌≤◌};
ghost use Rattle.px_bytes.specs.Limit.{text_limit};
ghost use Rattle.tcl_trees.specs.Tree.{Tree, element, trees_of};
ghost use Rattle.tcl_trees.specs.TreeView.{nodes_view};
ghost use Rattle.plain_eval.specs.End.{ended};
ghost use Rattle.plain_eval.specs.Ran.{Evaluates, pieces_of, words_of};
ghost use Rattle.plain_eval.specs.Stand.{Gave, Ran, stand};

use crate::context::Context;
use crate::host::PlainHost;
use crate::run::{Halted, Halts, Run};
use crate::tree::eval_tree;
use px_bytes::{Text, Texts};
use rule_nodes::{element, parts};
use tcl_trees::Node;

/// The values of words, in order, behind a name of so many bytes.
#[inline(never)]
#[cycle(plain)]
pub(crate) fn eval_words<H: PlainHost>(
    context: &Context<'_, H::Env>,
    levels: usize,
    name_len: usize,
    words: &[Node],
    run: &mut Run<'_>,
    host: &mut H,
) -> Result<Texts, Halted>
    requires { name_len ≤ text_limit }
    ensures halts { IfErr result (λ h. ended run.new.end ≡ Err h) }
    ensures gave { (name : List (List ℕ)) (k : ℕ) (p : Tree → ℕ) → sum_by length name ≡ name_len
        → let words = words_of H.table context.now name k p words.now in
        Gave words (stand run.old host.old) result run.new.end (stand run.new host.new) }
{
    let mut values = Texts::new(context.alloc);
    let mut total = name_len;
    for word in words {
        eval_word(context, levels, parts(word), run, host)?;
        total = run.add_value(context.alloc, total, &mut values)?;
    }
    Ok(values)
}

/// The pieces of a word, joined. A word of one piece has its value, and copies nothing.
#[inline(never)]
#[cycle(plain)]
pub(crate) fn eval_word<H: PlainHost>(
    context: &Context<'_, H::Env>,
    levels: usize,
    parts: &[Node],
    run: &mut Run<'_>,
    host: &mut H,
) -> Halts
    ensures ended { result ≡ ended run.new.end }
    ensures ran { (p : Tree → ℕ) → let word = pieces_of H.table context.now p parts.now in
        Ran true word (stand run.old host.old) run.new.end (stand run.new host.new) }
{
    if let [part] = parts {
        let _ = eval_tree(context, levels, part, true, run, host);
        return run.limit(context.alloc);
    }
    let mut text = Text::empty(context.alloc);
    for part in parts {
        eval_tree(context, levels, part, true, run, host)?;
        run.add_piece(context.alloc, &mut text)?;
    }
    run.settle(Ok(text))
}

/// The value of an array's element, whose index these pieces are.
#[inline(never)]
#[cycle(plain)]
pub(crate) fn eval_element<H: PlainHost>(
    context: &Context<'_, H::Env>,
    levels: usize,
    name: &Text,
    index: &[Node],
    run: &mut Run<'_>,
    host: &mut H,
) -> Halts
    ensures ended { result ≡ ended run.new.end }
    ensures ran { let tree = element name.now (trees_of (nodes_view index.now)) in
        Evaluates H.table context.now true tree run.old host.old run.new host.new }
{
    eval_word(context, levels, index, run, host)?;
    let index = run.take(context.alloc);
    let value = element(context.alloc, context.statics, &run.vars, name, &index);
    run.settle(value)
}
