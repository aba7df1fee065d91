// A body that runs.

use crate::setup::Handler;
use frames::{Host, Machine, Moves, Turn};
use px_bytes::{M, Reply, Steps};
use std::alloc::Global;
use std::sync::ledger::Ledger;
use tcl_vars::Vars;

/// A body by steps, and whether its next step may be made.
#[derive(Drop)]
pub struct RunningBody {
    pub(crate) machine: Machine,
    /// The next step may be made.
    pub(crate) runs: bool,
    /// A shared call waits.
    pub(crate) asks: bool,
    ghost running: { runs ≡ true → is_running machine.at.mode ≡ true },
    ghost asking: { asks ≡ true → is_asked machine.at.mode ≡ true },
}

ghost use Rattle.std.specs.Prelude.{◌≡◌, true};
ghost use Rattle.conn.specs.Modes.{is_running, is_asked};

impl RunningBody {
    ghost use Rattle.std.specs.Prelude.{◌+◌, ◌-◌, ◌<◌, ◌≤◌, false, List, Some, OnOk, IfOk};
    ghost use Rattle.px_bytes.specs.Host.{Effect};
    ghost use Rattle.tcl_trees.specs.Procedures.{procs_view};
    ghost use Rattle.tcl_trees.specs.TreeView.{node_view};
    ghost use Rattle.frames.specs.Given.{setting};
    ghost use Rattle.frames.specs.Went.{Went, place};
    ghost use Rattle.conn.specs.Bodies.{Fresh, Heard, IsIdle, SaidIs};

    /// A body that doesn't run.
    pub fn new(alloc: Global) -> RunningBody
        ensures { IsIdle result }
    {
        RunningBody {
            machine: Machine::start(alloc, 0),
            runs: false,
            asks: false,
        }
    }

    /// A body begins, with this budget.
    pub fn begin(&mut self, budget: u32)
        ensures { Fresh self.new budget }
    {
        self.machine.restart(budget);
        self.runs = true;
        self.asks = false;
    }

    /// The reply comes to the call that waits. Out of memory the body doesn't go on.
    pub fn resume(&mut self, reply: &Reply) -> M<()>
        ensures { OnOk result (self.old.asks ≡ true → Heard reply.now self.old self.new) }
    {
        if !self.asks {
            return Ok(());
        }
        self.asks = false;
        self.machine.resume(reply)?;
        self.runs = true;
        Ok(())
    }

    /// One step of the body, on these static variables.
    pub fn step<S: Moves, H: Host, L: Ledger>(
        &mut self,
        alloc: Global,
        handler: &Handler<'_>,
        statics: &Vars,
        vars: &mut Vars,
        host: &mut H,
        env: &H::Env,
        steps: &mut Steps<L>,
        spent: &mut u64,
    ) -> M<Turn>
        requires { spent.old < 2000 }
        ensures went { let procs = procs_view handler.now.procs.now in
            let g = setting (Some statics.now.statics) (H.table env.now) procs in
            let t = node_view handler.now.body.now in
            let old = place self.old.machine.at vars.old (H.seen host.old) in
            let new = place self.new.machine.at vars.new (H.seen host.new) in
            let made : List Effect → Type 0 = λ es. H.made host.old es host.new in
            let ticks = steps.new - steps.old in
            IfOk result (λ turn. self.old.runs ≡ true → Went g t old new turn made ticks) }
        ensures said { IfOk result (λ turn. self.old.runs ≡ true → SaidIs turn self.new) }
        ensures ticks { OnOk result (steps.old < steps.new) }
        ensures few { steps.new ≤ steps.old + 10 }
        ensures counted { OnOk result (spent.new + steps.old ≡ spent.old + steps.new) }
    {
        if !self.runs {
            steps.tick();
            *spent += 1;
            return Ok(Turn::More);
        }
        self.runs = false;
        self.asks = false;
        let statics = Some(statics);
        let turn = S::step::<H, L>(
            &mut self.machine,
            alloc,
            handler.body,
            handler.procs,
            statics,
            vars,
            host,
            env,
            steps,
        )?;
        *spent += self.machine.ticked();
        match &turn {
            Turn::More => self.runs = true,
            Turn::Asks(_) => self.asks = true,
            Turn::Done(_) => {}
        }
        Ok(turn)
    }
}
