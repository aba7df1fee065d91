//! What a program reaches outside: files to read, a place to write to, sockets and a clock, and
//! each of them in memory.
#![tactic(auto)]

mod answers;
mod clock;
mod failed;
mod files;
mod mem_clock;
mod mem_files;
mod mem_link;
mod mem_net;
mod mem_script;
mod mem_sink;
mod net;
mod sink;

pub use answers::{Accepted, ConnectAnswer, ReadAnswer, ReadyAt, ReadyList, WriteAnswer};
pub use clock::Clock;
pub use failed::{Counts, Failed};
pub use files::Files;
pub use mem_clock::MemClock;
pub use mem_files::MemFiles;
pub use mem_link::MemLink;
pub use mem_net::MemNet;
pub use mem_script::{MemRead, MemReads, MemScript, MemWrite, MemWrites, NetFails};
pub use mem_sink::MemSink;
pub use net::Net;
pub use sink::{Sink, write_all};
