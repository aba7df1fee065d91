//! A test's run on a core of a configuration, which keeps the promise of the core.
#![tactic(auto)]

mod runs;

pub use runs::{RunDone, run_moves};
