//! HTTP/1 messages as they are read: a head, how the length of its body is known, and what it says of its connection.
#![tactic(auto)]

mod connection;
mod laws;
mod request;
mod response;

pub use laws::{requests_are_short, responses_are_short};
pub use request::request_of;
pub use response::response_of;
