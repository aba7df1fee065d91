// Who makes the moves of a body.

ghost use Rattle.std.specs.Prelude.{IfOk, List, OnOk, option_map, ◌+◌, ◌-◌, ◌<◌, ◌≡◌, ◌≤◌};
ghost use Rattle.tcl_trees.specs.Procedures.{procs_view};
ghost use Rattle.tcl_trees.specs.TreeView.{node_view};
ghost use Rattle.rule_model.specs.Host.{Effect};
ghost use Rattle.frames.specs.Given.{setting};
ghost use Rattle.frames.specs.Went.{IsRunning, Went, place};

use crate::host::Host;
use crate::machine::Machine;
use crate::turn::Turn;
use px_bytes::{M, Steps};
use std::alloc::Global;
use std::sync::ledger::Ledger;
use tcl_trees::{Node, Procs};
use tcl_vars::Vars;

/// The moves of bodies. What runs bodies stands on this, so that it needn't be proved behind them.
pub trait Moves {
    /// One move of a body: what it comes to stays the same, whatever replies are still to come.
    /// `statics` are the static variables where they are only read; with `None` they are those of
    /// `vars`. Out of memory, neither the machine nor `vars` nor `host` is to be used further.
    fn step<H: Host, L: Ledger>(
        machine: &mut Machine,
        alloc: Global,
        tree: &Node,
        procs: &Procs,
        statics: Option<&Vars>,
        vars: &mut Vars,
        host: &mut H,
        env: &H::Env,
        steps: &mut Steps<L>,
    ) -> M<Turn>
        requires { IsRunning machine.old.at.mode }
        ensures went { let level = option_map (λ v. v.now.statics) statics.entry in
            let g = setting level (H.table env.now) (procs_view procs.now) in
            let t = node_view tree.now in
            let old = place machine.old.at vars.old (H.seen host.old) in
            let new = place machine.new.at vars.new (H.seen host.new) in
            let made : List Effect → Type 0 = λ es. H.made host.old es host.new in
            let ticks = steps.new - steps.old in
            IfOk result (λ turn. Went g t old new turn made ticks) }
        ensures ticked { steps.new ≡ steps.old + machine.new.ticked }
        ensures some { OnOk result (0 < machine.new.ticked) }
        ensures few { machine.new.ticked ≤ 10 };
}
