//! What a test names and its configuration hasn't.
#![tactic(auto)]

mod named;

pub use named::{Unnamed, UnnamedAt, unnamed_of};
