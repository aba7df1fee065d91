//! Network commands: the host commands of a rule that don't begin with `HTTP::`.
#![tactic(auto)]

mod asked;
mod checks;
mod classes;
mod command;
mod effects;
mod faults;
mod form;
mod groups;
mod held;
mod laws;
mod look_up;
mod request;
mod state;
mod steps;
mod targets;
mod told;

pub use command::net_command;
pub use effects::{Effects, Made};
pub use groups::{Groups, NamedGroup, PoolMembers};
pub use laws::{
    choice_alone_stays, commands_keep_given, events_are_apart, faults_change_nothing,
    held_bytes_fit, releases_are_bounded, sends_are_bounded,
};
pub use state::{Asks, Collected, Ending, NetState, Selected, Target, Wishes};
