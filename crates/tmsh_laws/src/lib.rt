//! Laws of the second text.
#![tactic(auto)]

mod laws;

pub use laws::printed_is_read_back;
