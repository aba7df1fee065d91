//! Heads of HTTP/1 messages: read, edited and written.
#![tactic(auto)]

mod edits;
mod fault;
mod field;
mod fields;
mod forwarded;
mod front;
mod host;
mod laws;
mod line;
mod passed;
mod received;
mod request;
mod response;
mod spans;
mod target;
mod written;

pub use fault::HeadFault;
pub use field::{Field, is_field};
pub use fields::Fields;
pub use forwarded::{ConnectionOption, forward_request, forward_response};
pub use front::{HeadPart, Looked};
pub use laws::{
    forwarded_request_is_short, forwarded_response_is_short, request_comes_back, request_is_one,
    request_is_read, request_is_trimmed, request_stays_short, response_comes_back, response_is_one,
    response_is_read, response_is_trimmed, response_stays_short,
};
pub use line::{Reason, RequestMethod, RequestTarget, StatusCode, Version};
pub use passed::{passed_request, passed_response};
pub use received::{received_request, received_response};
pub use request::{RequestHead, read_request, write_request};
pub use response::{ResponseHead, read_response, write_response};
pub use written::{put_field, put_status, put_version};
