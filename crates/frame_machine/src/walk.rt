// The nodes on which a body stands, from its root on.

ghost use Rattle.std.specs.Prelude.{IfOk, List, OnOk, [], length, take, ◌-◌, ◌≡◌};
ghost use Rattle.tcl_trees.specs.Procedures.{Procedure, procs_view};
ghost use Rattle.tcl_trees.specs.Tree.{Tree};
ghost use Rattle.tcl_trees.specs.TreeView.{node_view};
ghost use Rattle.frame_machine.specs.Walks.{Enters, Follows, root_spot, spot_of, staying};

use crate::place::{Place, Waypoint, place_in, root_place};
use frames::{Frame, Mode, Standing};
use px_bytes::M;
use std::alloc::Global;
use tcl_trees::{Node, Procs};

/// The nodes on which a body stands, from its root on, up to the first that runs an expression that
/// was read when it ran. It is made once and follows a machine, so that a step finds its node
/// without a way from the root.
#[derive(Drop)]
pub struct Walk<'a> {
    pub(crate) below: Vec<Place<'a>>,
    pub(crate) top: Place<'a>,
}

impl<'a> Walk<'a> {
    /// The root alone.
    fn root(alloc: Global, tree: &'a Node) -> Walk<'a>
        ensures below { result.below.items ≡ [] }
        ensures top { spot_of result.top ≡ root_spot (node_view tree.now) }
    {
        Walk {
            below: Vec::new(alloc),
            top: root_place(tree),
        }
    }

    /// The nodes on which these frames stand.
    pub(crate) fn along(
        alloc: Global,
        procs: &'a Procs,
        tree: &'a Node,
        frames: &[Frame],
    ) -> M<Walk<'a>>
        ensures { let procedures = procs_view procs.now in
            IfOk result (λ w. Follows procedures (node_view tree.now) frames.now w) }
    {
        let mut walk = Walk::root(alloc, tree);
        for frame in frames {
            if !walk.enter(procs, frame)? {
                return Ok(walk);
            }
        }
        Ok(walk)
    }

    /// Goes on to the child that a frame tells, unless the frame owns it; tells whether it did.
    fn enter(&mut self, procs: &'a Procs, frame: &Frame) -> M<bool>
        ensures { let procedures = procs_view procs.now in
            IfOk result (λ did. Enters procedures frame.now self.old did self.new) }
    {
        match place_in(procs, self.top, frame) {
            Some(place) => {
                self.below.push(self.top)?;
                self.top = place;
                Ok(true)
            }
            None => Ok(false),
        }
    }

    /// The last node that it has.
    pub(crate) fn last(&self) -> Waypoint<'a>
        ensures place { result.place ≡ self.now.top }
        ensures passed { result.passed ≡ length self.now.below.items }
    {
        Waypoint {
            place: self.top,
            passed: self.below.len(),
        }
    }

    /// Stands on a node that the frames below the child that runs tell.
    pub(crate) fn retreat(&mut self, at: &Standing)
        ensures { (procedures : List Procedure) (t : Tree)
            → Follows procedures t at.now.frames.items self.old
            → Follows procedures t (staying at.now.mode at.now.frames.items) self.new }
    {
        match &at.mode {
            Mode::Back(_) => self.leave(at.frames.len()),
            Mode::Begin | Mode::Asked(_) | Mode::Over => {}
        }
    }

    /// Leaves the child that the last of so many frames tells.
    fn leave(&mut self, frames: usize)
        ensures { (procedures : List Procedure) (t : Tree) (fs : List Frame) → length fs ≡ frames
            → Follows procedures t fs self.old
            → Follows procedures t (take (length fs - 1) fs) self.new }
    {
        if self.below.len() != frames {
            return;
        }
        if let Some(place) = self.below.pop() {
            self.top = place;
        }
    }

    /// Goes on to the child that the last of these frames tells, where it stands below that one.
    pub(crate) fn catch_up(&mut self, procs: &'a Procs, frames: &[Frame]) -> M<()>
        ensures { let procedures = procs_view procs.now in
            OnOk result ((t : Tree) → Follows procedures t frames.now self.old
            → Follows procedures t frames.now self.new) }
    {
        if let Some((frame, front)) = frames.split_last() {
            if self.below.len() == front.len() {
                self.enter(procs, frame)?;
            }
        }
        Ok(())
    }
}
