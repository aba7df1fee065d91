//! The store that all connections share, which answers their calls one after another.
#![tactic(auto)]

mod laws;
mod named;
mod named_pools;
mod source;
mod store;
mod words;

pub use laws::{expired_is_live, live_is_kept, live_store_stays, rows_stay_few};
pub use named::{NamedPool, VirtualTime, VirtualTimes};
pub use named_pools::Pools;
pub use store::Store;
pub use words::sleeps_for;
