//! What happens in a run of a test, move by move.
#![tactic(auto)]

mod choices;
mod deeds;
mod laws;
mod plan;
mod way;

pub use choices::{groups, lengths};
pub use laws::texts_are_whole;
pub use plan::{TestMove, moves};
pub use way::{StepOrders, ways};
