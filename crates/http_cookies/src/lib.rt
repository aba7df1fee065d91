//! The cookies of requests and responses, and the cookie that names a member of a pool.
#![tactic(auto)]

mod blanks;
mod laws;
mod member;
mod message;
mod parts;
mod removal;
mod request;

pub use laws::values_are_apart;
pub use member::{print_bigip, read_bigip};
pub use message::{cookie_called, cookie_field, cookie_names, cookie_text, message_cookies};
pub use removal::without_cookie;
pub use request::cookies;
