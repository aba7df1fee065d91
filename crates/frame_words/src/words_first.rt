// The words of a node, from its beginning.

ghost use Rattle.std.specs.Prelude.{IfOk, OnOk, option_map, ◌+◌, ◌≡◌};
ghost use Rattle.tcl_trees.specs.TreeView.{node_view};
ghost use Rattle.tcl_trees.specs.declared.node.Node.{out-Node};
ghost use Rattle.frame_words.specs.FirstWords.{first_cost, first_cost_in, first_words};
ghost use Rattle.frame_words.specs.FirstWords.{first_words_in};

use crate::words::{Gathered, one_word, words};
use frames::Values;
use px_bytes::{M, Steps, Text};
use rule_model::Code;
use std::alloc::Global;
use std::sync::ledger::Ledger;
use tcl_trees::Node;
use tcl_vars::Vars;

/// The words of a command, of a `foreach`, a `switch` and of a `catch` with a name. The name of a
/// command that holds bodies costs one, and counts among its words.
#[tactic(auto, using(crate::proofs::FirstViews::words_view, crate::proofs::FirstViews::cost_view))]
#[inline(always)]
pub fn first_words<K: Ledger>(
    alloc: Global,
    statics: Option<&Vars>,
    vars: &Vars,
    node: &Node,
    paid: &mut Steps<K>,
) -> M<Gathered>
    ensures words { let level = option_map (λ v. v.now.statics) statics.entry in
        IfOk result (λ r. r ≡ first_words level vars.now (node_view node.now)) }
    ensures cost { let level = option_map (λ v. v.now.statics) statics.entry in
        OnOk result (paid.new ≡ paid.old + first_cost level vars.now (node_view node.now)) }
{
    words_here(alloc, statics, vars, node, paid)
}

#[inline(always)]
fn words_here<K: Ledger>(
    alloc: Global,
    statics: Option<&Vars>,
    vars: &Vars,
    node: &Node,
    paid: &mut Steps<K>,
) -> M<Gathered>
    ensures words { let level = option_map (λ v. v.now.statics) statics.entry in
        IfOk result (λ r. r ≡ first_words_in level vars.now (out-Node node.now)) }
    ensures cost { let level = option_map (λ v. v.now.statics) statics.entry in
        OnOk result (paid.new ≡ paid.old + first_cost_in level vars.now (out-Node node.now)) }
{
    match node {
        Node::Command(_, all) => {
            words(alloc, statics, vars, all, 0, 1, Values::new(alloc), paid)
        }
        Node::Foreach { words: all, .. } => {
            paid.tick();
            let name = Values::of_name(alloc, b"foreach")?;
            words(alloc, statics, vars, all, 0, 1, name, paid)
        }
        Node::Switch { words: all, .. } => {
            paid.tick();
            let name = Values::of_name(alloc, b"switch")?;
            words(alloc, statics, vars, all, 0, 0, name, paid)
        }
        Node::CatchIn { name: word, .. } => {
            paid.tick();
            let name = Values::of_name(alloc, b"catch")?;
            one_word(alloc, statics, vars, word, 1, name, paid)
        }
        _ => Ok(Gathered::Ends(Code::Value(Text::empty(alloc)))),
    }
}
