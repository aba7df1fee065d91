//! What a program reaches outside, for real: files, standard output, sockets and the system's
//! clock. They tell nothing of contents, and each fault is counted.
#![tactic(auto)]

mod clock;
mod files;
mod lingering;
mod link;
mod links;
mod mio_net;
mod sinks;
mod sockets;

pub use clock::RealClock;
pub use files::RealFiles;
pub use mio_net::MioNet;
pub use sinks::{FileSink, NoSink, StdoutSink};
