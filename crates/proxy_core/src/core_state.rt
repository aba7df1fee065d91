// All connections.

ghost use Rattle.std.specs.Prelude.{◌≡◌, ◌≤◌, ℕ, true, length, []};
ghost use Rattle.std.specs.Prelude.{IfOk};
ghost use Rattle.proxy_core.specs.Ready.{numbers, is_in};

use crate::call_queue::CallQueue;
use crate::live::Live;
use crate::server_bodies::EventPlaces;
use crate::start::{StartParts, StartRoom};
use core_events::Notes;
use number_table::Table;
use px_bytes::{M, Seq};
use run_config::Config;
use shared_store::Store;
use std::alloc::Global;
use tcl_vars::Vars;

/// The live connections, those of them that are ready to run, the shared calls that wait, and the
/// store that answers them.
#[derive(Drop)]
pub struct Core {
    pub(crate) alloc: Global,
    pub(crate) config: Config,
    /// What RULE_INIT left in the static variables.
    pub(crate) statics: Vars,
    /// Where the bodies of each virtual server stand.
    pub(crate) places: Seq<EventPlaces>,
    /// The present moment: that of the last Tick.
    pub(crate) moment: u64,
    /// The greatest number that was accepted.
    pub(crate) last: u32,
    /// The live connections by their numbers, and the ring of those that are ready to run.
    pub(crate) live: Table<Live>,
    /// The shared calls that wait for their Turn.
    pub(crate) queue: CallQueue,
    /// The store that all connections share.
    pub(crate) store: Store,
    ghost numbered: { live.numbers ≡ numbers live.items },
    ghost live_known: { (n : ℕ) → is_in (numbers live.items) n ≡ true → n ≤ last },
    ghost live_limit: { length live.items ≤ config.connections },
    ghost live_room: { config.connections ≤ live.room },
    ghost queue_room: { config.connections ≤ queue.room },
}

impl Core {
    ghost use Rattle.proxy_core.specs.Represents.{Represents};
    ghost use Rattle.proxy_core.specs.Scheduler.{no_connections};
    ghost use Rattle.record_model.specs.Setup.{init_notes};
    ghost use Rattle.proxy_core.specs.Start.{IsStartRoom, IsStartRules, IsStart};

    /// A core without connections, and the notes of its start. It has room for all connections that
    /// may be live at once.
    pub fn new(alloc: Global, config: Config) -> M<(Core, Notes)>
        ensures start { IfOk result (λ made. IsStart config made.0) }
        ensures stands { IfOk result (λ made. Represents config [] no_connections made.0) }
        ensures notes { IfOk result (λ made. made.1.items ≡ init_notes config) }
    {
        match StartParts::new(alloc, &config) {
            Ok(parts) => Ok(Core::joined(alloc, config, parts)),
            Err(why) => {
                drop(config);
                Err(why)
            }
        }
    }

    // The core of these parts, and the notes of its start.
    fn joined(alloc: Global, config: Config, parts: StartParts) -> (Core, Notes)
        requires ruled { IsStartRules config parts.ruled }
        requires room { IsStartRoom config parts.room }
        ensures start { IsStart config result.0 }
        ensures notes { result.1.items ≡ init_notes config }
    {
        let StartParts { ruled, room } = parts;
        let StartRoom { live, queue, store } = room;
        let core = Core {
            alloc,
            config,
            statics: ruled.vars,
            places: ruled.places,
            moment: 0,
            last: 0,
            live,
            queue,
            store,
        };
        (core, ruled.notes)
    }
}
