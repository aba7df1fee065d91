//! Connections, the rules that they run, and the events that move them.
#![tactic(auto)]

mod accept;
mod call;
mod call_queue;
mod choices;
mod comes;
mod core_state;
mod face;
mod init;
mod init_host;
mod laws;
mod live;
mod mark;
mod queries;
mod ring;
mod run;
mod server_bodies;
mod setup;
mod start;
mod step;
mod tick;
mod turn;
mod views;

pub use choices::choices_determine;
pub use core_events::{BadEvent, Cause, Event, Note, Notes};
pub use core_state::Core;
pub use laws::{
    bytes_are_bounded, notes_fit_edges, only_changed, output_matches_evaluator,
    servers_are_numbered,
};
