//! Places in a text, as an editor counts them.
#![tactic(auto)]

mod place;

pub use place::{column_of, line_at, line_of};
