// What a connection runs on.

ghost use Rattle.std.specs.Prelude.{◌≡◌, option_map};
ghost use Rattle.conn.specs.Setups.{body_at, body_in, handler_of, places_at};
ghost use Rattle.conn.specs.Setups.{places_in};

use crate::events::At;
use event_order::EventName;
use irule_net::Groups;
use px_bytes::{Seq, Text};
use rule_loader::{Rule, event_place};
use tcl_trees::{Node, Procs};
use tcl_vars::Vars;

/// Where a body stands that runs at an event: the number of its rule, its own number among those that
/// its rule has for the event, and its priority.
#[derive(Clone, Copy)]
pub struct Place {
    pub rule: usize,
    pub number: usize,
    pub priority: u16,
}

/// The bodies of an event, in the order in which they run.
pub type Places = Seq<Place>;

/// A body, with its rule's name and procedures.
#[derive(Clone, Copy)]
pub struct Handler<'a> {
    pub name: &'a Text,
    pub procs: &'a Procs,
    pub body: &'a Node,
}

/// What a connection only reads: the name of its virtual server, its port and its default pool, whose
/// name is empty where it has none, whether it speaks HTTP, how many units each body may spend,
/// the static variables that RULE_INIT left, the data groups and pools that rules name, all rules, and
/// where the bodies of its virtual server stand in them, with a list for each event in the order of
/// `EventName::ALL`.
#[derive(Clone, Copy)]
pub struct Setup<'a> {
    pub name: &'a [u8],
    pub port: u16,
    pub pool: &'a [u8],
    pub http: bool,
    pub budget: u32,
    pub statics: &'a Vars,
    pub groups: &'a Groups,
    pub rules: &'a [Rule],
    pub places: &'a [Places],
}

impl<'a> Setup<'a> {
    /// Where the bodies of an event stand.
    pub fn places(&self, at: At) -> &'a [Place]
        ensures { result.now ≡ places_at self.now at }
    {
        places_in(self.places, at.name())
    }

    /// The body of this number of an event.
    pub fn body(&self, at: At, number: usize) -> Option<Handler<'a>>
        ensures { option_map handler_of result ≡ body_at self.now at number }
    {
        match self.places(at).get(number) {
            Some(place) => body_in(self.rules, at.name(), *place),
            None => None,
        }
    }
}

fn places_in(lists: &[Places], event: EventName) -> &[Place]
    ensures { result.now ≡ places_in lists.now event }
{
    match lists.get(event_place(event)) {
        Some(places) => places.as_slice(),
        None => &[],
    }
}

/// The body at a place of rules.
pub fn body_in(rules: &[Rule], event: EventName, place: Place) -> Option<Handler<'_>>
    ensures { option_map handler_of result ≡ body_in rules.now event place }
{
    let rule = rules.get(place.rule)?;
    let handler = rule.handlers(event).get(place.number)?;
    Some(Handler {
        name: &rule.name,
        procs: &rule.procs,
        body: &handler.body,
    })
}
