//! Commands that encode, decode and digest texts, and that compare addresses.
#![tactic(auto)]

mod addr;
mod addresses;
mod base64_text;
mod digest;
mod laws;
mod percent;

pub use addr::addr_of;
pub use addresses::{ip_addr, read_address, read_network};
pub use base64_text::{b64decode, b64encode};
pub use digest::sha256;
pub use laws::{decodes_encodings, decodes_nothing_else};
pub use percent::{uri_decode, uri_encode};
