//! In how many ways a test may go: how what it sends is cut, and in which order what is done
//! together happens.
#![tactic(auto)]

mod cut;
mod laws;
mod order;
mod piece;

pub use cut::{Cut, cuts};
pub use laws::{each_cut_once, each_order_once, pieces_are_whole};
pub use order::{MOST_ORDERS, StepOrder, orders};
pub use piece::pieces;
