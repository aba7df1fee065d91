// Expressions that are read when they run.

ghost use Rattle.std.specs.Prelude.{IfOk, codes, ◌∷◌, ◌≡◌};
ghost use Rattle.std.specs.List.{join_by};
ghost use Rattle.tcl_trees.specs.TreeView.{node_view};
ghost use Rattle.rule_model.specs.Commands.{expression_of, flaw_fault};
ghost use Rattle.rule_nodes.specs.GivesAs.{GivesAs};

use px_bytes::{M, Raise, TEXT_LIMIT, TclFault, Text, Texts};
use rule_nodes::too_deep;
use std::alloc::Global;
use tcl_compile::{CompileFault, compile_expression};
use tcl_trees::{Flaw, Node, is_too_deep};

/// The tree of an `expr` whose words are joined by blanks.
pub fn read_expression(alloc: Global, words: &Texts) -> Result<Node, Raise>
    ensures { GivesAs node_view result (expression_of words.now) }
{
    let [_, first, rest @ ..] = words.as_slice() else {
        return Err(Raise::Fault(TclFault::wrong_arity(alloc, b"expr")?));
    };
    let text = spaced(first, rest)?;
    if text.len() > TEXT_LIMIT {
        return Err(Raise::Fault(TclFault::too_long(alloc)?));
    }
    match compile_expression(alloc, text.as_bytes()) {
        Ok(tree) => Ok(tree),
        Err(CompileFault::Flaw(flaw)) => Err(Raise::Fault(flaw_fault(alloc, flaw)?)),
        Err(CompileFault::Memory) => Err(Raise::Memory),
    }
}

fn spaced(first: &Text, rest: &[Text]) -> M<Text>
    ensures { IfOk result (λ t. t ≡ join_by (λ w. w) (codes " ") (first.now ∷ rest.now)) }
{
    let mut text = first.copy()?;
    for word in rest {
        text.push(b" ")?;
        text.push(word.as_bytes())?;
    }
    Ok(text)
}

fn flaw_fault(alloc: Global, flaw: Flaw) -> M<TclFault>
    ensures { IfOk result (λ f. f ≡ flaw_fault flaw) }
{
    if is_too_deep(flaw) {
        return too_deep(alloc);
    }
    TclFault::syntax_error(alloc, b"expr")
}
