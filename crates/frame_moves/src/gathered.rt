// What a node does with the words that it evaluated first.

ghost use Rattle.std.specs.Prelude.{IfOk, List, OnOk, ◌+◌, ◌*◌, ◌≡◌, ◌≤◌};
ghost use Rattle.tcl_trees.specs.Procedures.{procs_view};
ghost use Rattle.tcl_trees.specs.TreeView.{node_view};
ghost use Rattle.tcl_trees.specs.declared.node.Node.{out-Node};
ghost use Rattle.rule_model.specs.Host.{Effect};
ghost use Rattle.frame_words.specs.FirstWords.{word_verb, word_verb_in};
ghost use Rattle.frames.specs.Frames.{inner_of, words_end};
ghost use Rattle.frame_words.specs.Gathered.{WordsReady, words_out};
ghost use Rattle.frames.specs.Given.{setting_of};
ghost use Rattle.frames.specs.Moves.{Moved, Ready, due, now};

use crate::ends::end_words;
use frame_words::{Caller, Gathered, by_words, next_after};
use frames::{Context, Frame, Host, Next, Room};
use px_bytes::{M, Steps, Texts};
use std::sync::ledger::Ledger;
use tcl_trees::{Node, Verb};
use tcl_vars::Vars;

// What a command is that evaluates nothing more than its words.
#[tactic(auto, using(frame_words::proofs::FirstViews::word_verb_view))]
#[inline(always)]
fn word_verb(node: &Node) -> Option<Verb>
    ensures { result ≡ word_verb (node_view node.now) }
{
    verb_here(node)
}

#[inline(always)]
fn verb_here(node: &Node) -> Option<Verb>
    ensures { result ≡ word_verb_in (out-Node node.now) }
{
    match node {
        Node::Command(verb, _) => match *verb {
            Verb::Call | Verb::ExprOfWords => None,
            verb => Some(verb),
        },
        _ => None,
    }
}

// What a node does with all its words.
#[inline(always)]
fn finish<H: Host, L: Ledger, K: Ledger>(
    context: &Context<'_, H::Env>,
    node: &Node,
    room: Room,
    words: Texts,
    wanted: bool,
    vars: &mut Vars,
    host: &mut H,
    budget: &mut u32,
    steps: &mut Steps<L>,
    paid: &mut Steps<K>,
) -> M<Next>
    ensures did { let g = setting_of H.table context.now in
        let t = node_view node.now in
        let whole = words_end g (inner_of g room) t words in
        let old = now vars.old (H.seen host.old) budget.old paid.old in
        let new = now vars.new (H.seen host.new) budget.new paid.new in
        let made : List Effect → Type 0 = λ es. H.made host.old es host.new in
        IfOk result (λ next. Moved g room wanted t whole old new next made) }
    ensures ready { let procedures = procs_view context.now.procs.now in
        IfOk result (λ next. Ready procedures (node_view node.now) next) }
    ensures owed { let owed = steps.old + 3 + 3 * paid.new in
        IfOk result (λ next. steps.new + due next + 3 * paid.old ≤ owed) }
    ensures grows { OnOk result (paid.old ≤ paid.new) }
    ensures ticks { OnOk result (steps.old ≤ steps.new) }
    ensures few { steps.new ≤ steps.old + 5 }
{
    match word_verb(node) {
        Some(verb) => {
            let done = by_words(context, verb, &words, wanted, vars, host, steps)?;
            Ok(next_after(done))
        }
        None => {
            let caller = Caller {
                alloc: context.alloc,
                statics: context.statics,
                procs: context.procs,
                room,
                wanted,
            };
            let next = end_words(&caller, node, &words, vars, budget, steps, paid)?;
            Ok(next)
        }
    }
}

/// Goes on with the words of a node, up to the first part that has to run.
#[inline(always)]
pub(crate) fn go_gathered<H: Host, L: Ledger, K: Ledger>(
    context: &Context<'_, H::Env>,
    node: &Node,
    room: Room,
    gathered: Gathered,
    wanted: bool,
    vars: &mut Vars,
    host: &mut H,
    budget: &mut u32,
    steps: &mut Steps<L>,
    paid: &mut Steps<K>,
) -> M<Next>
    ensures did { let g = setting_of H.table context.now in
        let t = node_view node.now in
        let whole = words_out g (inner_of g room) t gathered in
        let old = now vars.old (H.seen host.old) budget.old paid.old in
        let new = now vars.new (H.seen host.new) budget.new paid.new in
        let made : List Effect → Type 0 = λ es. H.made host.old es host.new in
        IfOk result (λ next. Moved g room wanted t whole old new next made) }
    ensures ready { let procedures = procs_view context.now.procs.now in
        let t = node_view node.now in
        IfOk result (λ next. WordsReady t gathered → Ready procedures t next) }
    ensures owed { let owed = steps.old + 3 + 3 * paid.new in
        IfOk result (λ next. steps.new + due next + 3 * paid.old ≤ owed) }
    ensures grows { OnOk result (paid.old ≤ paid.new) }
    ensures ticks { OnOk result (steps.old ≤ steps.new) }
    ensures few { steps.new ≤ steps.old + 5 }
{
    match gathered {
        Gathered::All(values) => {
            let words = values.into_texts();
            let next = finish(
                context, node, room, words, wanted, vars, host, budget, steps, paid,
            )?;
            Ok(next)
        }
        Gathered::Ends(code) => Ok(Next::stop(code)),
        Gathered::Child {
            word,
            part,
            values,
            text,
        } => Ok(Next::child(Frame::Words {
            word,
            part,
            values,
            text,
        })),
    }
}
