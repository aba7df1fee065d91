//! A rule's body by steps: frames that stop inside a command and go on with a reply.
#![tactic(auto)]

mod laws;
mod place;
mod step;
mod walk;

pub use laws::{machine_equals_evaluator, ticks_are_bounded};
pub use step::Stepper;
pub use walk::Walk;
