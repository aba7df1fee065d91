//! How a node begins, and how it goes on behind its child.
#![tactic(auto)]

mod beginning;
mod ends;
mod gathered;
mod going_on;
mod prefixes;
mod reading;
mod stills;
mod turns;

pub use beginning::begin;
pub use going_on::go_on;
