//! Byte texts, lists of them, addresses, faults and the counter of steps.
#![tactic(auto)]

mod addr;
mod address;
mod decimal;
mod escapes;
mod fault;
mod fault_text;
mod hex_read;
mod hexadecimal;
mod letters;
mod limit;
mod memory;
mod net;
mod pattern;
mod piece;
mod position;
mod roomy;
mod seq;
mod set_of_bytes;
mod split_at;
mod steps;
mod text;
mod white;
mod whole;
mod whole_word;

pub use addr::{Addr, Net4, Side};
pub use address::{print_addr, print_ip, read_addr, read_ip};
pub use decimal::read_decimal;
pub use escapes::escape;
pub use fault::{FaultKind, HostAnswer, HttpFault, Raise, Reply, TclFault};
pub use hex_read::read_hex;
pub use hexadecimal::print_hex;
pub use letters::{lower, same_name};
pub use limit::TEXT_LIMIT;
pub use memory::{M, Memory};
pub use net::read_net;
pub use pattern::{glob, matches_is_glob};
pub use position::place;
pub use roomy::RoomySeq;
pub use seq::{Pairs, Seq, Texts};
pub use set_of_bytes::{ByteSet, byte_set, has_byte};
pub use steps::Steps;
pub use text::Text;
pub use white::{is_space, trimmed};
pub use whole::{print_whole, read_whole};
pub use whole_word::number;
