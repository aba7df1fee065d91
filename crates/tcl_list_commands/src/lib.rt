//! The commands that work on lists and change nothing.
#![tactic(auto)]

mod counting;
mod form;
mod items;
mod joining;
mod laws;
mod making;
mod options;
mod order;
mod picking;
mod reading;
mod searching;
mod sorting;
mod splitting;
mod writing;

pub use counting::llength;
pub use joining::{concat, join};
pub use laws::{sort_has_the_same, sort_is_ordered, sort_keeps_equals};
pub use making::list;
pub use picking::{lindex, lrange};
pub use searching::lsearch;
pub use sorting::lsort;
pub use splitting::split_text;
