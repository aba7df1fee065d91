// Where a frame's child stands, and the node above all frames.

ghost use Rattle.std.specs.Prelude.{IfSome, drop, length, ◌≡◌, ◌≤◌};
ghost use Rattle.tcl_trees.specs.Procedures.{procs_view};
ghost use Rattle.tcl_trees.specs.Tree.{next_body};
ghost use Rattle.tcl_trees.specs.TreeView.{node_view};
ghost use Rattle.frames.specs.Frames.{body_of, inside, room_in, wants};
ghost use Rattle.frame_machine.specs.Places.{inner_tree};
ghost use Rattle.frame_machine.specs.Walks.{root_spot, spot_above, spot_in, spot_of};

use frames::{Frame, Room, child_at, part_at};
use tcl_trees::{Node, Procs};

/// The most calls, and the most expressions that are read when they run, inside one another.
const FULL_ROOM: Room = Room {
    calls: 100,
    expressions: 100,
};

/// A node with what its frames say of it.
#[derive(Clone, Copy)]
pub(crate) struct Place<'a> {
    pub(crate) node: &'a Node,
    pub(crate) room: Room,
    pub(crate) wanted: bool,
}

/// A place on the way from the root, behind so many frames.
#[derive(Clone, Copy)]
pub(crate) struct Waypoint<'a> {
    pub(crate) place: Place<'a>,
    pub(crate) passed: usize,
}

/// The child that a frame tells by its place in the node.
#[inline(always)]
fn inner<'a>(node: &'a Node, frame: &Frame) -> &'a Node
    ensures { node_view result.now ≡ inner_tree (node_view node.now) frame.now }
{
    match frame {
        Frame::Called { .. } | Frame::Read { .. } => node,
        Frame::Words { word, part, .. } => part_at(child_at(node, *word), *part),
        Frame::Script { at, .. } => child_at(node, *at),
        Frame::Pieces { part, .. } => child_at(node, *part),
        Frame::Left { at } => child_at(node, *at),
        Frame::Right { at, .. } => child_at(node, *at),
        Frame::Condition { place, .. } => child_at(node, *place),
        Frame::Body { place, .. } => child_at(node, *place),
        Frame::Each { place, .. } => child_at(node, *place),
        Frame::Test { .. } => child_at(node, 1),
        Frame::Next { .. } => child_at(node, 2),
        Frame::Turn { .. } => child_at(node, 3),
        Frame::Operand { .. } => child_at(node, 0),
        Frame::Start => child_at(node, 0),
        Frame::Caught => child_at(node, 0),
        Frame::CaughtIn { .. } => child_at(node, 0),
        Frame::Whole => child_at(node, 0),
    }
}

/// The child that a frame tells. `none` stands for the body of a procedure that isn't there.
#[inline(always)]
fn child<'a>(procs: &'a Procs, none: &'a Node, node: &'a Node, frame: &'a Frame) -> &'a Node
    requires { node_view none.now ≡ next_body }
    ensures { let procedures = procs_view procs.now in
        node_view result.now ≡ inside procedures (node_view node.now) frame.now }
{
    match frame {
        Frame::Called { procedure, .. } => body(procs, none, *procedure),
        Frame::Read { tree, .. } => tree,
        _ => inner(node, frame),
    }
}

/// The same, where neither the frame owns it nor a procedure isn't there.
#[inline(always)]
fn lasting<'a>(procs: &'a Procs, node: &'a Node, frame: &Frame) -> Option<&'a Node>
    ensures { let procedures = procs_view procs.now in
        IfSome result (λ n. node_view n.now ≡ inside procedures (node_view node.now) frame.now) }
{
    match frame {
        Frame::Called { procedure, .. } => match procs.at(*procedure) {
            Some(procedure) => Some(&procedure.body),
            None => None,
        },
        Frame::Read { .. } => None,
        _ => Some(inner(node, frame)),
    }
}

#[inline(always)]
fn body<'a>(procs: &'a Procs, none: &'a Node, place: usize) -> &'a Node
    requires { node_view none.now ≡ next_body }
    ensures { node_view result.now ≡ body_of (procs_view procs.now) place }
{
    match procs.at(place) {
        Some(procedure) => &procedure.body,
        None => none,
    }
}

/// Whether the value of that child is heard.
#[inline(always)]
pub(crate) fn wants(frame: &Frame) -> bool
    ensures { result ≡ wants frame.now }
{
    match frame {
        Frame::Script { wanted, .. } => *wanted,
        Frame::Body { wanted, .. } => *wanted,
        Frame::Called { wanted, .. } => *wanted,
        Frame::Start => false,
        Frame::Turn { .. } => false,
        Frame::Next { .. } => false,
        Frame::Each { .. } => false,
        _ => true,
    }
}

/// What may nest inside it.
#[inline(always)]
fn room_in(room: Room, frame: &Frame) -> Room
    ensures { result ≡ room_in room frame.now }
{
    match frame {
        Frame::Called { room, .. } => *room,
        Frame::Read { room, .. } => *room,
        _ => room,
    }
}

/// The root of a body.
#[inline(always)]
pub(crate) fn root_place(tree: &Node) -> Place<'_>
    ensures { spot_of result ≡ root_spot (node_view tree.now) }
{
    Place {
        node: tree,
        room: FULL_ROOM,
        wanted: true,
    }
}

/// The child that a frame tells, where it stays as long as the node.
#[inline(always)]
pub(crate) fn place_in<'a>(procs: &'a Procs, place: Place<'a>, frame: &Frame) -> Option<Place<'a>>
    ensures { let procedures = procs_view procs.now in
        IfSome result (λ p. spot_of p ≡ spot_in procedures (spot_of place.entry) frame.now) }
{
    match lasting(procs, place.node, frame) {
        Some(node) => Some(Place {
            node,
            room: room_in(place.room, frame),
            wanted: wants(frame),
        }),
        None => None,
    }
}

/// The node above all frames, from a place on the way to it.
#[inline(always)]
pub(crate) fn locate<'a>(
    procs: &'a Procs,
    none: &'a Node,
    from: Waypoint<'a>,
    frames: &'a [Frame],
) -> Place<'a>
    requires none { node_view none.now ≡ next_body }
    requires passed { from.passed ≤ length frames.now }
    ensures { let procedures = procs_view procs.now in
        let above = drop from.entry.passed frames.now in
        spot_of result ≡ spot_above procedures (spot_of from.entry.place) above }
{
    let (_, above) = frames.split_at(from.passed);
    climb(procs, none, from.place, above)
}

// The node above frames that begin at this place.
#[inline(always)]
fn climb<'a>(procs: &'a Procs, none: &'a Node, from: Place<'a>, frames: &'a [Frame]) -> Place<'a>
    requires { node_view none.now ≡ next_body }
    ensures { let procedures = procs_view procs.now in
        spot_of result ≡ spot_above procedures (spot_of from.entry) frames.now }
{
    let mut place = from;
    for frame in frames {
        place = Place {
            node: child(procs, none, place.node, frame),
            room: room_in(place.room, frame),
            wanted: wants(frame),
        };
    }
    place
}
