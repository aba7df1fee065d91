//! What a record of a proxy's events and notes says: the definitions, and laws of them.
#![tactic(auto)]

mod laws;
mod left;

pub use laws::{bodies_run_in_order, history_is_live, rows_are_few, statics_stay};
pub use left::Left;
