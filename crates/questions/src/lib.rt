//! Questions of outside tests, one a line: words that are read one by one, and an answer that grows.
#![tactic(auto)]

mod question;
mod write;

pub use question::{Question, add_times};
