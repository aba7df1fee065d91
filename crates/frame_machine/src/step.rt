// One step of a body.

ghost use Rattle.std.specs.Prelude.{IfOk, List, OnOk, option_map, ◌+◌, ◌-◌};
ghost use Rattle.std.specs.Prelude.{[], ◌*◌, ◌∷◌, ◌++◌, ◌<◌, ◌≡◌, ◌≤◌};
ghost use Rattle.tcl_trees.specs.Procedures.{procs_view};
ghost use Rattle.tcl_trees.specs.TreeView.{node_view};
ghost use Rattle.rule_model.specs.Host.{Effect};
ghost use Rattle.frames.specs.Given.{setting, setting_of};
ghost use Rattle.frames.specs.Moves.{list_of, now};
ghost use Rattle.frames.specs.Owed.{Heavy, owed, owed_by};
ghost use Rattle.frame_machine.specs.Steps.{Stood, StoodFrom, told_mode, told_turn};
ghost use Rattle.frame_machine.specs.Walks.{Follows, Grown, OnTheWay, staying};
ghost use Rattle.frames.specs.Went.{IsRunning, Went, place};

use crate::place::{Waypoint, locate, root_place, wants};
use crate::walk::Walk;
use frame_moves::{begin, go_on};
use frames::{Context, Frame, Host, Machine, Mode, Moves, Next, Turn, copied, hear};
use px_bytes::{M, Steps};
use rule_model::Code;
use std::alloc::Global;
use std::marker::Brand;
use std::mem::{self, ManuallyDrop};
use std::sync::ledger::{Blank, Ledger};
use tcl_trees::{Node, Procs};
use tcl_vars::Vars;

/// The moves of all kinds of nodes.
pub struct Stepper;

impl Moves for Stepper {
    fn step<H: Host, L: Ledger>(
        machine: &mut Machine,
        alloc: Global,
        tree: &Node,
        procs: &Procs,
        statics: Option<&Vars>,
        vars: &mut Vars,
        host: &mut H,
        env: &H::Env,
        steps: &mut Steps<L>,
    ) -> M<Turn> {
        Stepper::from_root::<H, L>(machine, alloc, tree, procs, statics, vars, host, env, steps)
    }
}

impl Stepper {
    /// Stands where a move leads, and tells what it comes to.
    #[inline(always)]
    fn stand(machine: &mut Machine, alloc: Global, next: Next) -> M<Turn>
        requires { machine.old.at.mode ≡ Mode.Over }
        ensures frames { OnOk result
            (machine.new.at.frames.items ≡ machine.old.at.frames.items ++ list_of next.frame) }
        ensures mode { OnOk result
            (machine.new.at.mode ≡ told_mode machine.new.at.frames.items next.mode) }
        ensures budget { machine.new.at.budget ≡ machine.old.at.budget }
        ensures told { IfOk result
            (λ turn. turn ≡ told_turn machine.new.at.frames.items next.mode) }
    {
        let Next { frame, mode } = next;
        if let Some(frame) = frame {
            machine.at.frames.push(frame)?;
        }
        Stepper::tell(machine, alloc, mode)
    }

    /// Tells what a mode comes to, and stands in it.
    #[inline(always)]
    fn tell(machine: &mut Machine, alloc: Global, mode: Mode) -> M<Turn>
        requires { machine.old.at.mode ≡ Mode.Over }
        ensures same { OnOk result (machine.new.at.frames ≡ machine.old.at.frames) }
        ensures mode { OnOk result (machine.new.at.mode ≡ told_mode machine.old.at.frames.items mode) }
        ensures budget { machine.new.at.budget ≡ machine.old.at.budget }
        ensures told { IfOk result (λ turn. turn ≡ told_turn machine.old.at.frames.items mode) }
    {
        match mode {
            Mode::Back(code) => {
                if machine.at.frames.is_empty() {
                    return Ok(Turn::Done(code));
                }
                Stepper::enter(machine, Mode::Back(code));
                Ok(Turn::More)
            }
            Mode::Asked(call) => {
                let told = copied(alloc, &call)?;
                Stepper::enter(machine, Mode::Asked(call));
                Ok(Turn::Asks(told))
            }
            mode => {
                Stepper::enter(machine, mode);
                Ok(Turn::More)
            }
        }
    }

    /// Stands in a mode. What stood there is over, and has nothing to drop.
    #[inline(always)]
    fn enter(machine: &mut Machine, mode: Mode)
        requires { machine.old.at.mode ≡ Mode.Over }
        ensures { machine.new.at ≡ record machine.old.at { mode = mode } }
    {
        mem::forget(mem::replace(&mut machine.at.mode, mode));
    }

    /// The node above all frames begins. It is found from a place on the way to it.
    #[inline(always)]
    fn begin_top<H: Host, L: Ledger, K: Ledger>(
        machine: &mut Machine,
        context: &Context<'_, H::Env>,
        tree: &Node,
        from: Waypoint<'_>,
        vars: &mut Vars,
        host: &mut H,
        steps: &mut Steps<L>,
        paid: &mut Steps<K>,
    ) -> M<Turn>
        requires over { machine.old.at.mode ≡ Mode.Over }
        requires place { let procedures = procs_view context.now.procs.now in
            OnTheWay procedures (node_view tree.now) machine.old.at.frames.items from }
        ensures did { let g = setting_of H.table context.now in
            let t = node_view tree.now in
            let fs = machine.old.at.frames.items in
            let old = now vars.old (H.seen host.old) machine.old.at.budget paid.old in
            let new = now vars.new (H.seen host.new) machine.new.at.budget paid.new in
            let made : List Effect → Type 0 = λ es. H.made host.old es host.new in
            IfOk result (λ turn. StoodFrom g t fs Mode.Begin machine.new.at turn old new made) }
        ensures heavy { let procedures = procs_view context.now.procs.now in
            let t = node_view tree.now in
            let fs = machine.old.at.frames.items in
            OnOk result (Heavy procedures t fs Mode.Begin
            → Heavy procedures t machine.new.at.frames.items machine.new.at.mode) }
        ensures owed { let procedures = procs_view context.now.procs.now in
            let t = node_view tree.now in
            let fs = machine.old.at.frames.items in
            let most = steps.old + owed_by fs Mode.Begin + 3 * paid.new in
            OnOk result (Heavy procedures t fs Mode.Begin
            → steps.new + owed machine.new.at + 3 * paid.old ≤ most) }
        ensures ticks { OnOk result (steps.old < steps.new) }
        ensures few { steps.new ≤ steps.old + 10 }
        ensures grown { OnOk result
            (Grown machine.old.at.frames.items machine.new.at.frames.items) }
    {
        steps.tick();
        let none = ManuallyDrop::new(Node::NextBody);
        let frames = machine.at.frames.as_slice();
        let place = locate(context.procs, &none, from, frames);
        let (node, room, wanted) = (place.node, place.room, place.wanted);
        let budget = &mut machine.at.budget;
        let next = begin(context, node, room, wanted, vars, host, budget, steps, paid)?;
        let turn = Stepper::stand(machine, context.alloc, next)?;
        Ok(turn)
    }

    /// The node above all frames goes on, behind the child that stood on this frame of it.
    #[inline(always)]
    fn go_on_top<H: Host, L: Ledger, K: Ledger>(
        machine: &mut Machine,
        context: &Context<'_, H::Env>,
        tree: &Node,
        from: Waypoint<'_>,
        frame: Frame,
        code: Code,
        vars: &mut Vars,
        host: &mut H,
        steps: &mut Steps<L>,
        paid: &mut Steps<K>,
    ) -> M<Turn>
        requires over { machine.old.at.mode ≡ Mode.Over }
        requires place { let procedures = procs_view context.now.procs.now in
            OnTheWay procedures (node_view tree.now) machine.old.at.frames.items from }
        ensures did { let g = setting_of H.table context.now in
            let t = node_view tree.now in
            let fs = machine.old.at.frames.items ++ frame ∷ [] in
            let old = now vars.old (H.seen host.old) machine.old.at.budget paid.old in
            let new = now vars.new (H.seen host.new) machine.new.at.budget paid.new in
            let made : List Effect → Type 0 = λ es. H.made host.old es host.new in
            IfOk result (λ turn. StoodFrom g t fs (Mode.Back code) machine.new.at turn old new made) }
        ensures heavy { let procedures = procs_view context.now.procs.now in
            let t = node_view tree.now in
            let fs = machine.old.at.frames.items ++ frame ∷ [] in
            OnOk result (Heavy procedures t fs (Mode.Back code)
            → Heavy procedures t machine.new.at.frames.items machine.new.at.mode) }
        ensures owed { let procedures = procs_view context.now.procs.now in
            let t = node_view tree.now in
            let fs = machine.old.at.frames.items ++ frame ∷ [] in
            let most = steps.old + owed_by fs (Mode.Back code) + 3 * paid.new in
            OnOk result (Heavy procedures t fs (Mode.Back code)
            → steps.new + owed machine.new.at + 3 * paid.old ≤ most) }
        ensures ticks { OnOk result (steps.old < steps.new) }
        ensures few { steps.new ≤ steps.old + 10 }
        ensures grown { OnOk result
            (Grown machine.old.at.frames.items machine.new.at.frames.items) }
    {
        steps.tick();
        let none = ManuallyDrop::new(Node::NextBody);
        let code = hear(context.alloc, wants(&frame), code);
        let frames = machine.at.frames.as_slice();
        let place = locate(context.procs, &none, from, frames);
        let (node, room, wanted) = (place.node, place.room, place.wanted);
        let budget = &mut machine.at.budget;
        let next = go_on(
            context, node, room, frame, code, wanted, vars, host, budget, steps, paid,
        )?;
        let turn = Stepper::stand(machine, context.alloc, next)?;
        Ok(turn)
    }

    /// One move, with what it costs. The node above the frames that stay is found from a place on
    /// the way to it.
    #[inline(always)]
    fn step_with<H: Host, L: Ledger, K: Ledger>(
        machine: &mut Machine,
        context: &Context<'_, H::Env>,
        tree: &Node,
        from: Waypoint<'_>,
        vars: &mut Vars,
        host: &mut H,
        steps: &mut Steps<L>,
        paid: &mut Steps<K>,
    ) -> M<Turn>
        requires running { IsRunning machine.old.at.mode }
        requires place { let procedures = procs_view context.now.procs.now in
            let fs = staying machine.old.at.mode machine.old.at.frames.items in
            OnTheWay procedures (node_view tree.now) fs from }
        ensures did { let g = setting_of H.table context.now in
            let t = node_view tree.now in
            let old = now vars.old (H.seen host.old) machine.old.at.budget paid.old in
            let new = now vars.new (H.seen host.new) machine.new.at.budget paid.new in
            let made : List Effect → Type 0 = λ es. H.made host.old es host.new in
            IfOk result (λ turn. Stood g t machine.old.at machine.new.at turn old new made) }
        ensures heavy { let procedures = procs_view context.now.procs.now in
            let t = node_view tree.now in
            OnOk result (Heavy procedures t machine.old.at.frames.items machine.old.at.mode
            → Heavy procedures t machine.new.at.frames.items machine.new.at.mode) }
        ensures owed { let procedures = procs_view context.now.procs.now in
            let t = node_view tree.now in
            let most = steps.old + owed machine.old.at + 3 * paid.new in
            OnOk result (Heavy procedures t machine.old.at.frames.items machine.old.at.mode
            → steps.new + owed machine.new.at + 3 * paid.old ≤ most) }
        ensures ticks { OnOk result (steps.old < steps.new) }
        ensures few { steps.new ≤ steps.old + 10 }
        ensures grown { let fs = staying machine.old.at.mode machine.old.at.frames.items in
            OnOk result (Grown fs machine.new.at.frames.items) }
    {
        match mem::replace(&mut machine.at.mode, Mode::Over) {
            Mode::Begin => {
                Stepper::begin_top(machine, context, tree, from, vars, host, steps, paid)
            }
            Mode::Back(code) => match machine.at.frames.pop() {
                Some(frame) => Stepper::go_on_top(
                    machine, context, tree, from, frame, code, vars, host, steps, paid,
                ),
                None => {
                    steps.tick();
                    Ok(Turn::Done(code))
                }
            },
            Mode::Asked(_) | Mode::Over => {
                steps.tick();
                Ok(Turn::More)
            }
        }
    }

    /// The same, with a counter of its own for the cost.
    #[inline(always)]
    fn step_counted<H: Host, L: Ledger, K: Ledger>(
        machine: &mut Machine,
        context: &Context<'_, H::Env>,
        tree: &Node,
        from: Waypoint<'_>,
        vars: &mut Vars,
        host: &mut H,
        steps: &mut Steps<L>,
        blank: Blank,
    ) -> M<Turn>
        requires name { blank.name ≡ K.name }
        requires parts { blank.parts ≡ K.parts }
        requires some { 0 < blank.parts }
        requires running { IsRunning machine.old.at.mode }
        requires place { let procedures = procs_view context.now.procs.now in
            let fs = staying machine.old.at.mode machine.old.at.frames.items in
            OnTheWay procedures (node_view tree.now) fs from }
        ensures went { let g = setting_of H.table context.now in
            let t = node_view tree.now in
            let old = place machine.old.at vars.old (H.seen host.old) in
            let new = place machine.new.at vars.new (H.seen host.new) in
            let made : List Effect → Type 0 = λ es. H.made host.old es host.new in
            let ticks = steps.new - steps.old in
            IfOk result (λ turn. Went g t old new turn made ticks) }
        ensures ticks { OnOk result (steps.old < steps.new) }
        ensures few { steps.new ≤ steps.old + 10 }
        ensures grown { let fs = staying machine.old.at.mode machine.old.at.frames.items in
            OnOk result (Grown fs machine.new.at.frames.items) }
    {
        let mut paid = Steps::<K>::new(blank);
        let turn = Stepper::step_with(machine, context, tree, from, vars, host, steps, &mut paid)?;
        Ok(turn)
    }

    /// The same, with a counter of its own for the ticks, which it tells.
    #[inline(always)]
    fn step_ticked<H: Host, L: Ledger, J: Ledger>(
        machine: &mut Machine,
        context: &Context<'_, H::Env>,
        tree: &Node,
        from: Waypoint<'_>,
        vars: &mut Vars,
        host: &mut H,
        steps: &mut Steps<L>,
        blank: Blank,
    ) -> M<Turn>
        requires name { blank.name ≡ J.name }
        requires parts { blank.parts ≡ J.parts }
        requires some { 0 < blank.parts }
        requires running { IsRunning machine.old.at.mode }
        requires place { let procedures = procs_view context.now.procs.now in
            let fs = staying machine.old.at.mode machine.old.at.frames.items in
            OnTheWay procedures (node_view tree.now) fs from }
        ensures went { let g = setting_of H.table context.now in
            let t = node_view tree.now in
            let old = place machine.old.at vars.old (H.seen host.old) in
            let new = place machine.new.at vars.new (H.seen host.new) in
            let made : List Effect → Type 0 = λ es. H.made host.old es host.new in
            let ticks = steps.new - steps.old in
            IfOk result (λ turn. Went g t old new turn made ticks) }
        ensures ticked { steps.new ≡ steps.old + machine.new.ticked }
        ensures some { OnOk result (0 < machine.new.ticked) }
        ensures few { machine.new.ticked ≤ 10 }
        ensures grown { let fs = staying machine.old.at.mode machine.old.at.frames.items in
            OnOk result (Grown fs machine.new.at.frames.items) }
    {
        let mut ticks = Steps::<J>::new(blank);
        let paid = Blank::new(1);
        let counted = &mut ticks;
        match Stepper::step_counted::<H, J, Brand>(
            machine, context, tree, from, vars, host, counted, paid,
        ) {
            Ok(turn) => {
                Stepper::tell_ticks(machine, ticks.count(), steps);
                Ok(turn)
            }
            Err(memory) => {
                Stepper::tell_ticks(machine, ticks.count(), steps);
                Err(memory)
            }
        }
    }

    /// Tells so many ticks, and counts them.
    #[inline(always)]
    fn tell_ticks<L: Ledger>(machine: &mut Machine, ticked: u64, steps: &mut Steps<L>)
        ensures at { machine.new.at ≡ machine.old.at }
        ensures ticked { machine.new.ticked ≡ ticked }
        ensures steps { steps.new ≡ steps.old + ticked }
    {
        machine.ticked = ticked;
        steps.add(ticked);
    }

    /// One move of a body: what it comes to stays the same, whatever replies are still to come.
    #[inline(always)]
    fn from_root<H: Host, L: Ledger>(
        machine: &mut Machine,
        alloc: Global,
        tree: &Node,
        procs: &Procs,
        statics: Option<&Vars>,
        vars: &mut Vars,
        host: &mut H,
        env: &H::Env,
        steps: &mut Steps<L>,
    ) -> M<Turn>
        requires { IsRunning machine.old.at.mode }
        ensures went { let level = option_map (λ v. v.now.statics) statics.entry in
            let g = setting level (H.table env.now) (procs_view procs.now) in
            let t = node_view tree.now in
            let old = place machine.old.at vars.old (H.seen host.old) in
            let new = place machine.new.at vars.new (H.seen host.new) in
            let made : List Effect → Type 0 = λ es. H.made host.old es host.new in
            let ticks = steps.new - steps.old in
            IfOk result (λ turn. Went g t old new turn made ticks) }
        ensures ticked { steps.new ≡ steps.old + machine.new.ticked }
        ensures some { OnOk result (0 < machine.new.ticked) }
        ensures few { machine.new.ticked ≤ 10 }
    {
        let context = Context {
            alloc,
            statics,
            env,
            procs,
        };
        let blank = Blank::new(1);
        let from = Waypoint {
            place: root_place(tree),
            passed: 0,
        };
        Stepper::step_ticked::<H, L, Brand>(machine, &context, tree, from, vars, host, steps, blank)
    }

    /// The nodes on which the body stands.
    pub fn walk<'a>(
        machine: &Machine,
        alloc: Global,
        tree: &'a Node,
        procs: &'a Procs,
    ) -> M<Walk<'a>>
        ensures { let fs = machine.now.at.frames.items in
            IfOk result (λ w. Follows (procs_view procs.now) (node_view tree.now) fs w) }
    {
        Walk::along(alloc, procs, tree, machine.at.frames.as_slice())
    }

    /// The same, where a walk follows the machine, which it does then too: no way from the root.
    pub fn step_along<'a, H: Host, L: Ledger>(
        machine: &mut Machine,
        alloc: Global,
        walk: &mut Walk<'a>,
        tree: &'a Node,
        procs: &'a Procs,
        statics: Option<&Vars>,
        vars: &mut Vars,
        host: &mut H,
        env: &H::Env,
        steps: &mut Steps<L>,
    ) -> M<Turn>
        requires running { IsRunning machine.old.at.mode }
        requires follows { let fs = machine.old.at.frames.items in
            Follows (procs_view procs.now) (node_view tree.now) fs walk.old }
        ensures went { let level = option_map (λ v. v.now.statics) statics.entry in
            let g = setting level (H.table env.now) (procs_view procs.now) in
            let t = node_view tree.now in
            let old = place machine.old.at vars.old (H.seen host.old) in
            let new = place machine.new.at vars.new (H.seen host.new) in
            let made : List Effect → Type 0 = λ es. H.made host.old es host.new in
            let ticks = steps.new - steps.old in
            IfOk result (λ turn. Went g t old new turn made ticks) }
        ensures ticked { steps.new ≡ steps.old + machine.new.ticked }
        ensures some { OnOk result (0 < machine.new.ticked) }
        ensures few { machine.new.ticked ≤ 10 }
        ensures follows { let fs = machine.new.at.frames.items in
            OnOk result (Follows (procs_view procs.now) (node_view tree.now) fs walk.new) }
    {
        walk.retreat(&machine.at);
        let context = Context {
            alloc,
            statics,
            env,
            procs,
        };
        let blank = Blank::new(1);
        let from = walk.last();
        let turn = Stepper::step_ticked::<H, L, Brand>(
            machine, &context, tree, from, vars, host, steps, blank,
        )?;
        walk.catch_up(procs, machine.at.frames.as_slice())?;
        Ok(turn)
    }
}
