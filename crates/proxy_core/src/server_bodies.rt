// Where the bodies of virtual servers stand.

ghost use Rattle.std.specs.Prelude.{◌≡◌, ◌<◌, ◌++◌, IfOk, IfSome, OnOk, length, map, nat_le};
ghost use Rattle.std.specs.Prelude.{slice_get};
ghost use Rattle.std.specs.List.{position_from};
ghost use Rattle.proxy_core.specs.Bodies.{all_places, gathered, place_priority, placed, places_of};
ghost use Rattle.proxy_core.specs.Bodies.{rule_places, server_places};
ghost use Rattle.record_model.specs.Order.{by_priority, put};

use conn::{Place, Places};
use event_order::EventName;
use px_bytes::{M, Seq};
use rule_loader::{EventHandler, Rule};
use run_config::Virtual;
use std::alloc::Global;

/// The bodies of a virtual server: those of each event, in the order of `EventName::ALL`.
pub type EventPlaces = Seq<Places>;

/// Where the bodies of each virtual server stand.
pub fn all_places(alloc: Global, rules: &[Rule], virtuals: &[Virtual]) -> M<Seq<EventPlaces>>
    ensures { IfOk result (λ made. made ≡ all_places rules.now virtuals.now) }
{
    let mut made = Seq::new(alloc);
    for server in virtuals {
        made.push(server_places(alloc, rules, server.rules.as_slice())?)?;
    }
    Ok(made)
}

// Those of the rules of these numbers.
fn server_places(alloc: Global, rules: &[Rule], numbers: &[usize]) -> M<EventPlaces>
    ensures { IfOk result (λ made. made ≡ server_places rules.now numbers.now) }
{
    let mut made = Seq::new(alloc);
    for event in EventName::ALL.iter() {
        made.push(places_of(alloc, rules, numbers, *event)?)?;
    }
    Ok(made)
}

/// Those of an event, of the rules of these numbers: by their priority, and those of one priority
/// in the order of the rules and of their places.
pub fn places_of(alloc: Global, rules: &[Rule], numbers: &[usize], event: EventName) -> M<Places>
    ensures { IfOk result (λ places. places ≡ places_of rules.now numbers.now event) }
{
    let all = gathered(alloc, rules, numbers, event)?;
    let sorted = by_priority(alloc, all.as_slice())?;
    listed(alloc, &sorted)
}

fn gathered(alloc: Global, rules: &[Rule], numbers: &[usize], event: EventName) -> M<Places>
    ensures { IfOk result (λ places. places ≡ gathered rules.now event numbers.now) }
{
    let mut all = Seq::new(alloc);
    for number in numbers {
        add_rule(&mut all, rules, *number, event)?;
    }
    Ok(all)
}

fn add_rule(all: &mut Places, rules: &[Rule], number: usize, event: EventName) -> M<()>
    ensures { OnOk result (all.new ≡ all.old ++ rule_places rules.now event number) }
{
    match rules.get(number) {
        Some(rule) => add_bodies(all, number, rule.handlers(event).as_slice()),
        None => Ok(()),
    }
}

fn add_bodies(all: &mut Places, rule: usize, handlers: &[EventHandler]) -> M<()>
    ensures { OnOk result (all.new ≡ all.old ++ placed rule 0 handlers.now) }
{
    for (number, handler) in handlers.iter().enumerate() {
        let priority = handler.priority;
        all.push(Place {
            rule,
            number,
            priority,
        })?;
    }
    Ok(())
}

fn by_priority(alloc: Global, all: &[Place]) -> M<Vec<Place>>
    ensures { IfOk result (λ sorted. sorted.items ≡ by_priority place_priority all.now) }
{
    let mut sorted = Vec::new(alloc);
    for i in 0..all.len() {
        put(&mut sorted, all[all.len() - 1 - i])?;
    }
    Ok(sorted)
}

// Before the first of no lower priority.
fn put(sorted: &mut Vec<Place>, place: Place) -> M<()>
    ensures { OnOk result (sorted.new.items ≡ put place_priority place sorted.old.items) }
{
    let Some(at) = place_before(sorted, place.priority) else {
        sorted.push(place)?;
        return Ok(());
    };
    sorted.insert(at, place)?;
    Ok(())
}

fn place_before(sorted: &[Place], priority: u16) -> Option<usize>
    ensures place { result ≡ position_from (λ p. nat_le priority p.priority) 0 sorted.now }
    ensures within { IfSome result (λ at. at < length sorted.now) }
{
    sorted.iter().position(|p| priority <= p.priority)
}

fn listed(alloc: Global, places: &[Place]) -> M<Places>
    ensures { IfOk result (λ made. made ≡ places.now) }
{
    let mut made = Seq::new(alloc);
    for place in places {
        made.push(*place)?;
    }
    Ok(made)
}
