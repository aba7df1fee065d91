//! The kinds of commands in a rule, and the commands that only make a text of texts.
#![tactic(auto)]

mod kind;
mod laws;
mod pure_call;
mod pure_command;

pub use kind::{Kind, kind_of};
pub use laws::{host_commands_are_those_of_events, one_kind};
pub use pure_call::pure;
pub use pure_command::{PureCommand, read_pure};
