// The handlers of a rule by their events.

ghost use Rattle.std.specs.Prelude.{◌≡◌, ◌<◌, ◌++◌, [], ◌∷◌, IfOk, OnOk, if◌then◌else◌};
ghost use Rattle.event_order.specs.declared.event.EventName.{EventName};
ghost use Rattle.rule_loader.specs.Events.{event_place, is_event};
ghost use Rattle.rule_loader.specs.Handlers.{handlers_at};

use crate::handler::{EventHandler, Handlers};
use event_order::EventName;
use px_bytes::M;
use std::alloc::Global;
use std::marker::Model;

/// How many events there are.
const EVENTS: usize = 13;

/// The handlers of each event, seen as a list for each event.
#[derive(Drop)]
pub struct Bodies {
    lists: Vec<Handlers>,
}

impl Model for Bodies {
    ghost use Rattle.std.specs.Coded.{codes};
    ghost use Rattle.std.specs.Prelude.{◌≡◌, List, length};
    ghost use Rattle.tcl_trees.specs.contracts.node.Node as node;
    ghost use Rattle.rule_loader.specs.declared.handler.EventHandler.{EventHandler};

    ghost Value = { List (List EventHandler) };

    ghost coded = { Prim.hlevel (codes, node.the_row.coded) };

    ghost view = { λ b. b.lists.items };

    ghost invariant = { λ b. length b.lists.items ≡ 13 };
}

/// The place of an event among them all, in the order of `EventName::ALL`.
pub fn event_place(event: EventName) -> usize
    ensures value { result ≡ event_place event }
    ensures within { result < 13 }
{
    match event {
        EventName::RuleInit => 0,
        EventName::ClientAccepted => 1,
        EventName::ClientData => 2,
        EventName::ClientClosed => 3,
        EventName::ServerConnected => 4,
        EventName::ServerData => 5,
        EventName::ServerClosed => 6,
        EventName::LbSelected => 7,
        EventName::LbFailed => 8,
        EventName::HttpRequest => 9,
        EventName::HttpRequestData => 10,
        EventName::HttpResponse => 11,
        EventName::HttpResponseData => 12,
    }
}

impl Bodies {
    /// No handlers.
    pub(crate) fn new(alloc: Global) -> M<Bodies>
        ensures { IfOk result (λ b. (event : EventName) → handlers_at event b ≡ []) }
    {
        let mut lists = Vec::with_capacity(alloc, EVENTS)?;
        for i in 0..EVENTS {
            lists.push(Handlers::new(alloc))?;
        }
        Ok(Bodies { lists })
    }

    /// The handlers of an event.
    pub fn get(&self, event: EventName) -> &Handlers
        ensures { result.now ≡ handlers_at event self.now }
    {
        &self.lists[event_place(event)]
    }

    /// Adds a handler of an event at the end.
    pub(crate) fn push(&mut self, event: EventName, handler: EventHandler) -> M<()>
        ensures { OnOk result ((other : EventName) → handlers_at other self.new
            ≡ handlers_at other self.old ++ (if is_event event other then handler ∷ [] else [])) }
    {
        self.lists[event_place(event)].push(handler)
    }
}
