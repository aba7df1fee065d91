//! What goes on of a request to a server is read back, by the same grammar, as one request with the same body.
#![tactic(auto)]

mod laws;

pub use laws::{body_is_one, forwarded_is_one, heads_are_framed, request_is_one};
