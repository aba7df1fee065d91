//! The runs of a test, each on a core of its own, and what they come to.
#![tactic(auto)]

mod laws;
mod outcome;
mod runs;
mod source;
mod stop;

pub use laws::{schedule_has_no_fault, schedule_is_read, schedule_replays};
pub use outcome::{TestOutcome, outcome_of};
pub use runs::JudgedRun;
pub use source::{TestSource, config_of, read_source};
pub use stop::TestStop;
