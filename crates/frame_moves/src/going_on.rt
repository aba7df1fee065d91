// How a node goes on with the code of its child.

ghost use Rattle.std.specs.Prelude.{IfOk, List, OnOk, ◌+◌, ◌*◌, ◌≡◌, ◌≤◌};
ghost use Rattle.tcl_trees.specs.Procedures.{procs_view};
ghost use Rattle.tcl_trees.specs.TreeView.{node_view};
ghost use Rattle.rule_model.specs.Host.{Effect};
ghost use Rattle.frames.specs.Given.{setting_of};
ghost use Rattle.frames.specs.Moves.{Moved, Ready, due, goes_on, now};
ghost use Rattle.frames.specs.Owed.{mode_owed, weight};

use crate::gathered::go_gathered;
use crate::stills::go_still;
use frame_loops::{go_next, go_turn, loop_of};
use frame_words::{go_script, word_behind};
use frames::{Context, Frame, Host, Mode, Next, Room};
use px_bytes::{M, Steps};
use rule_model::Code;
use std::sync::ledger::Ledger;
use tcl_trees::Node;
use tcl_vars::Vars;

/// A node goes on with the code of the child that its frame tells.
#[inline(always)]
pub fn go_on<H: Host, L: Ledger, K: Ledger>(
    context: &Context<'_, H::Env>,
    node: &Node,
    room: Room,
    frame: Frame,
    code: Code,
    wanted: bool,
    vars: &mut Vars,
    host: &mut H,
    budget: &mut u32,
    steps: &mut Steps<L>,
    paid: &mut Steps<K>,
) -> M<Next>
    ensures did { let g = setting_of H.table context.now in
        let t = node_view node.now in
        let whole = goes_on g room t frame code in
        let old = now vars.old (H.seen host.old) budget.old paid.old in
        let new = now vars.new (H.seen host.new) budget.new paid.new in
        let made : List Effect → Type 0 = λ es. H.made host.old es host.new in
        IfOk result (λ next. Moved g room wanted t whole old new next made) }
    ensures ready { let procedures = procs_view context.now.procs.now in
        IfOk result (λ next. Ready procedures (node_view node.now) next) }
    ensures owed { let owed = weight frame + mode_owed (Mode.Back code) in
        IfOk result (λ next. steps.new + 1 + due next + 3 * paid.old
        ≤ steps.old + owed + 3 * paid.new) }
    ensures grows { OnOk result (paid.old ≤ paid.new) }
    ensures ticks { OnOk result (steps.old ≤ steps.new) }
    ensures few { steps.new ≤ steps.old + 9 }
{
    let (alloc, statics) = (context.alloc, context.statics);
    match frame {
        Frame::Words {
            word,
            part,
            values,
            text,
        } => match code {
            Code::Value(value) => {
                let words = word_behind(
                    alloc, statics, vars, node, word, part, values, text, &value, paid,
                )?;
                let gone = go_gathered(
                    context, node, room, words, wanted, vars, host, budget, steps, paid,
                )?;
                Ok(gone)
            }
            code => Ok(Next::stop(code)),
        },
        Frame::Script { at, .. } => {
            let went = go_script(
                alloc, statics, vars, node, at, wanted, code, budget, steps, paid,
            )?;
            Ok(went)
        }
        Frame::Turn { left } => {
            let parts = loop_of(node);
            let went = go_turn(
                alloc, statics, vars, &parts, left, code, budget, steps, paid,
            )?;
            Ok(went)
        }
        Frame::Next { left } => {
            let parts = loop_of(node);
            let went = go_next(
                alloc, statics, vars, &parts, left, code, budget, steps, paid,
            )?;
            Ok(went)
        }
        frame => {
            let went = go_still(
                alloc, statics, vars, node, frame, code, wanted, budget, steps, paid,
            )?;
            Ok(went)
        }
    }
}
