//! Data groups: rows of a key and a value, and which of them an item matches.
#![tactic(auto)]

mod fault;
mod group;
mod holds;
mod key;
mod kind;
mod laws;
mod matches;
mod places;

pub use fault::GroupFault;
pub use group::{Group, GroupRows};
pub use kind::{ClassOp, GroupKind};
pub use laws::longest_network_wins;
pub use matches::{lookup, match_first, search};
