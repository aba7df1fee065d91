// What a configuration gives a core at its start.

ghost use Rattle.std.specs.Prelude.{◌≡◌, ◌≤◌, IfOk, [], map};
ghost use Rattle.shared_store.specs.Store.{new_store};
ghost use Rattle.record_model.specs.History.{by_source, time_of, times_of};
ghost use Rattle.record_model.specs.Setup.{init_notes, statics_of};
ghost use Rattle.proxy_core.specs.Start.{IsStartRoom, IsStartRules};

use crate::call_queue::CallQueue;
use crate::init::{init, start_notes};
use crate::live::Live;
use crate::server_bodies::{EventPlaces, all_places};
use core_events::Notes;
use number_table::Table;
use px_bytes::{M, Seq};
use run_config::{Config, Persist, Virtual};
use shared_store::{Store, VirtualTime, VirtualTimes};
use std::alloc::Global;
use tcl_vars::Vars;

/// What its rules give: where the bodies of each virtual server stand, and what RULE_INIT left and
/// logged.
#[derive(Drop)]
pub struct StartRules {
    pub places: Seq<EventPlaces>,
    pub vars: Vars,
    pub notes: Notes,
}

/// Room for all connections that may be live at once and for their calls, and the store.
#[derive(Drop)]
pub struct StartRoom {
    pub live: Table<Live>,
    pub queue: CallQueue,
    pub store: Store,
}

/// All of it.
#[derive(Drop)]
pub struct StartParts {
    pub ruled: StartRules,
    pub room: StartRoom,
}

impl StartParts {
    pub fn new(alloc: Global, config: &Config) -> M<StartParts>
        ensures ruled { IfOk result (λ parts. IsStartRules config.now parts.ruled) }
        ensures room { IfOk result (λ parts. IsStartRoom config.now parts.room) }
    {
        let ruled = StartRules::new(alloc, config)?;
        match StartRoom::new(alloc, config) {
            Ok(room) => Ok(StartParts { ruled, room }),
            Err(why) => {
                drop(ruled);
                Err(why)
            }
        }
    }
}

impl StartRules {
    fn new(alloc: Global, config: &Config) -> M<StartRules>
        ensures { IfOk result (λ ruled. IsStartRules config.now ruled) }
    {
        let places = all_places(alloc, config.rules.as_slice(), config.virtuals.as_slice())?;
        match left_by(alloc, config) {
            Ok((vars, notes)) => Ok(StartRules {
                places,
                vars,
                notes,
            }),
            Err(why) => {
                drop(places);
                Err(why)
            }
        }
    }
}

// The variables that RULE_INIT left, and the notes of what it logged.
fn left_by(alloc: Global, config: &Config) -> M<(Vars, Notes)>
    ensures vars { IfOk result (λ left. left.0.statics ≡ statics_of config.now) }
    ensures notes { IfOk result (λ left. left.1.items ≡ init_notes config.now) }
{
    let left = init(alloc, config)?;
    match start_notes(alloc, left.lines.as_slice()) {
        Ok(notes) => Ok((left.vars, notes)),
        Err(why) => {
            drop(left);
            Err(why)
        }
    }
}

impl StartRoom {
    fn new(alloc: Global, config: &Config) -> M<StartRoom>
        ensures { IfOk result (λ room. IsStartRoom config.now room) }
    {
        let store = store_of(alloc, config)?;
        match tables(alloc, config.connections as usize) {
            Ok((live, queue)) => Ok(StartRoom { live, queue, store }),
            Err(why) => {
                drop(store);
                Err(why)
            }
        }
    }
}

// A store with the pools and the times of the virtual servers, and no row yet.
fn store_of(alloc: Global, config: &Config) -> M<Store>
    ensures { IfOk result (λ store. store
        ≡ new_store config.now.pools (times_of config.now) config.now.rows) }
{
    let times = times_of(alloc, config.virtuals.as_slice())?;
    match config.pools.copy(alloc) {
        Ok(pools) => Ok(Store::new(alloc, pools, times, config.rows)),
        Err(why) => {
            drop(times);
            Err(why)
        }
    }
}

// Which virtual servers keep the members that were chosen for clients, and how long.
fn times_of(alloc: Global, servers: &[Virtual]) -> M<VirtualTimes>
    ensures { IfOk result (λ times. times ≡ map time_of servers.now) }
{
    let mut times = VirtualTimes::new(alloc);
    for server in servers {
        times.push(time_of(server)?)?;
    }
    Ok(times)
}

fn time_of(server: &Virtual) -> M<VirtualTime>
    ensures { IfOk result (λ time. time ≡ time_of server.now) }
{
    Ok(VirtualTime {
        name: server.name.copy()?,
        by_source: by_source(server.persist),
        timeout: server.persist_timeout,
    })
}

fn by_source(persist: Persist) -> bool
    ensures { result ≡ by_source persist }
{
    match persist {
        Persist::SourceAddr => true,
        Persist::None | Persist::Cookie => false,
    }
}

// An empty table and an empty queue, for so many connections.
fn tables(alloc: Global, room: usize) -> M<(Table<Live>, CallQueue)>
    ensures items { IfOk result (λ made. made.0.items ≡ []) }
    ensures numbers { IfOk result (λ made. made.0.numbers ≡ []) }
    ensures ring { IfOk result (λ made. made.0.ring ≡ []) }
    ensures room { IfOk result (λ made. made.0.room ≡ room) }
    ensures queue { IfOk result (λ made. made.1.items ≡ []) }
    ensures asleep { IfOk result (λ made. made.1.asleep ≡ []) }
    ensures queue_room { IfOk result (λ made. room ≤ made.1.room) }
{
    let live = Table::with_capacity(alloc, room)?;
    match CallQueue::with_capacity(alloc, room) {
        Ok(queue) => Ok((live, queue)),
        Err(why) => {
            drop(live);
            Err(why)
        }
    }
}
