//! Values by keys, each with a deadline or none: found by the key, and gone by the deadline, without a pass
//! over all of them.
#![tactic(auto)]

mod rows;
mod slots;
mod timed_value;

pub use rows::Rows;
pub use timed_value::TimedValue;
