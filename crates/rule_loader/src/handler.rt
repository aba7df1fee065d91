// Handlers of events.

use px_bytes::Seq;
use tcl_trees::Node;

/// A body that runs at an event: those of a lower priority run first.
#[derive(Drop)]
pub struct EventHandler {
    pub priority: u16,
    pub body: Node,
}

/// Handlers of one event, in the order of their places in the rule.
pub type Handlers = Seq<EventHandler>;
