//! Bytes that were read and not used yet.
#![tactic(auto)]

mod crlf2;
mod held;

pub use crlf2::find_crlf2;
pub use held::Held;
