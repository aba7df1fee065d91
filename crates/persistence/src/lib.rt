//! Which member was chosen for the clients of an address, for a time.
#![tactic(auto)]

mod record;
mod records;

pub use record::Record;
pub use records::Records;
