//! The access report of a journal: what each virtual server had, summed over its connections.
#![tactic(auto)]

mod counts;
mod report;
mod rows;
mod table;
mod tally;

pub use counts::ServerCounts;
pub use report::report_of;
