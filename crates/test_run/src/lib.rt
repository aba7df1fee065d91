//! A run of a test: its moves are made on a core, and what happens is kept.
#![tactic(auto)]

mod deeds;
mod due;
mod event_copy;
mod give;
mod known;
mod moves;
mod rest;
mod run;
mod told;

pub use due::Due;
pub use known::{Amount, Known, Meets, SendingText};
pub use moves::SendingSide;
pub use run::TestRun;
