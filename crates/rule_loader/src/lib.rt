//! Rules: the handlers and procedures that a text is, or what is wrong with it and where.
#![tactic(auto)]

mod bodies;
mod event_word;
mod forms;
mod handler;
mod judge;
mod laws;
mod load_fault;
mod loader;
mod name_set;
mod parameters;
mod priority;
mod rule;
mod told;
mod words;

pub use bodies::{Bodies, event_place};
pub use handler::{EventHandler, Handlers};
pub use laws::{handlers_run_in_order, least_is_told};
pub use load_fault::{LoadFault, LoadKind, RuleFault};
pub use loader::load_rule;
pub use rule::Rule;
