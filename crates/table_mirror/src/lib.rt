//! A standby that holds the rows of an active session table, over a network that loses, repeats and reorders.
#![tactic(auto)]

mod entry;
mod follow;
mod laws;
mod moments;
mod network;
mod outcome;
mod packet;
mod plan;
mod sender;
mod standby;
mod told;

pub use entry::{PushedEntry, pushed_of};
pub use follow::follow_plan;
pub use laws::{
    applies_next, begins_in_order, history_is_mirrored, one_outcome, plan_holds, stays_in_order,
};
pub use moments::out_of_order;
pub use network::Network;
pub use outcome::MirrorOutcome;
pub use packet::{MirrorStop, Packet};
pub use plan::{PlanLine, PlanVerb};
pub use sender::Sender;
pub use standby::{EntryTaken, Standby};
pub use told::told_line;
