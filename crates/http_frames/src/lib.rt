//! The bodies of HTTP/1 messages, unit by unit.
#![tactic(auto)]

mod body;
mod chunk_line;
mod last_chunk;
mod laws;
mod number;
mod state;
mod unit;

pub use body::{request_body, response_body};
pub use laws::{
    cuts_are_not_seen, cuts_are_read, each_is_read, not_yet_may_become, parts_are_there,
    parts_stay, unit_is_one,
};
pub use state::{Body, BodyState, go_on, start};
pub use unit::{Unit, next_unit, next_unit_behind};
