// Rules.

ghost use Rattle.std.specs.Prelude.{◌≡◌};
ghost use Rattle.rule_loader.specs.Handlers.{handlers_at};

use crate::bodies::Bodies;
use crate::handler::Handlers;
use event_order::EventName;
use px_bytes::Text;
use tcl_trees::Procs;

/// A rule: its name, its procedures, and the bodies of its events.
#[derive(Drop)]
pub struct Rule {
    pub name: Text,
    pub procs: Procs,
    pub bodies: Bodies,
}

impl Rule {
    /// The handlers of an event, in the order of their places in the text. It takes no memory.
    pub fn handlers(&self, event: EventName) -> &Handlers
        ensures { result.now ≡ handlers_at event self.now.bodies }
    {
        self.bodies.get(event)
    }
}
