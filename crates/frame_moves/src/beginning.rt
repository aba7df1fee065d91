// How a node begins.

ghost use Rattle.std.specs.Prelude.{IfOk, List, OnOk, false, option_map, true, ◌+◌, ◌*◌, ◌≡◌, ◌≤◌};
ghost use Rattle.tcl_trees.specs.Procedures.{procs_view};
ghost use Rattle.tcl_trees.specs.TreeView.{node_view};
ghost use Rattle.tcl_trees.specs.declared.node.Node.{out-Node};
ghost use Rattle.rule_model.specs.Host.{Effect};
ghost use Rattle.frame_words.specs.FirstWords.{has_words, has_words_in};
ghost use Rattle.frames.specs.Given.{setting_of};
ghost use Rattle.frames.specs.Leafs.{leaf_code};
ghost use Rattle.frames.specs.Moves.{Moved, Ready, begins, due, now, stop};
ghost use Rattle.frames.specs.Owed.{is_flat};

use crate::gathered::go_gathered;
use crate::stills::begin_still;
use frame_words::{first_words, script_from};
use frames::{Context, Host, Next, Room, is_leaf, is_script, leaf_code};
use px_bytes::{M, Steps, Text};
use std::sync::ledger::Ledger;
use tcl_trees::Node;
use tcl_vars::Vars;

/// Whether a node evaluates words first.
#[tactic(auto, using(frame_words::proofs::FirstViews::has_words_view))]
#[inline(always)]
fn has_words(node: &Node) -> bool
    ensures { result ≡ has_words (node_view node.now) }
{
    has_words_here(node)
}

#[inline(always)]
fn has_words_here(node: &Node) -> bool
    ensures { result ≡ has_words_in (out-Node node.now) }
{
    match node {
        Node::Command(_, _) => true,
        Node::Foreach { .. } | Node::Switch { .. } | Node::CatchIn { .. } => true,
        _ => false,
    }
}

/// Begins a node.
#[inline(always)]
pub fn begin<H: Host, L: Ledger, K: Ledger>(
    context: &Context<'_, H::Env>,
    node: &Node,
    room: Room,
    wanted: bool,
    vars: &mut Vars,
    host: &mut H,
    budget: &mut u32,
    steps: &mut Steps<L>,
    paid: &mut Steps<K>,
) -> M<Next>
    ensures did { let g = setting_of H.table context.now in
        let t = node_view node.now in
        let old = now vars.old (H.seen host.old) budget.old paid.old in
        let new = now vars.new (H.seen host.new) budget.new paid.new in
        let made : List Effect → Type 0 = λ es. H.made host.old es host.new in
        IfOk result (λ next. Moved g room wanted t (begins g room t) old new next made) }
    ensures ready { let procedures = procs_view context.now.procs.now in
        IfOk result (λ next. Ready procedures (node_view node.now) next) }
    ensures owed { IfOk result (λ next. is_flat (node_view node.now) ≡ false
        → steps.new + due next + 3 * paid.old ≤ steps.old + 3 * paid.new) }
    ensures flat { let level = option_map (λ v. v.now.statics) context.now.statics in
        let t = node_view node.now in
        IfOk result (λ next. is_flat t ≡ true
        → (steps.new ≡ steps.old) × (next ≡ stop (leaf_code level vars.old t))) }
    ensures grows { OnOk result (paid.old ≤ paid.new) }
    ensures ticks { OnOk result (steps.old ≤ steps.new) }
    ensures few { steps.new ≤ steps.old + 9 }
{
    let (alloc, statics) = (context.alloc, context.statics);
    if is_leaf(node) {
        let code = leaf_code(alloc, statics, vars, node)?;
        return Ok(Next::stop(code));
    }
    if has_words(node) {
        let words = first_words(alloc, statics, vars, node, paid)?;
        let gone = go_gathered(
            context, node, room, words, wanted, vars, host, budget, steps, paid,
        )?;
        return Ok(gone);
    }
    if is_script(node) {
        let none = Text::empty(alloc);
        let went = script_from(
            alloc, statics, vars, node, 0, none, wanted, budget, steps, paid,
        )?;
        return Ok(went);
    }
    let began = begin_still(alloc, statics, vars, node, wanted, budget, steps, paid)?;
    Ok(began)
}
