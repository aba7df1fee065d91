//! The events of a rule, and the host commands with the events in which each may be called.
#![tactic(auto)]

mod command;
mod event;
mod events;
mod laws;
mod names;
mod phase;

pub use command::HostCommand;
pub use event::{EventName, read_event};
pub use laws::{finishing_is_final, host_commands_have_events, names_differ};
pub use names::{allowed, is_host_command, read_command};
pub use phase::{Happening, Phase, after};
