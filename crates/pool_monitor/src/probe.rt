// Members that are probed.

use px_bytes::{Addr, Text};

/// A probe that was sent and has neither succeeded nor failed.
#[derive(Drop)]
pub struct OpenProbe {
    pub link: u32,
    pub connected: bool,
    /// How many bytes of what it sends were written.
    pub sent: usize,
    /// All bytes that were read.
    pub heard: Text,
}

/// A member of a pool that is probed, and how it stands. Moments and times are in milliseconds.
#[derive(Drop)]
pub struct ProbedMember {
    /// The place of its monitor.
    pub monitor: usize,
    pub member: Addr,
    pub interval: u64,
    pub timeout: u64,
    /// The moment of the last probe, none before the first.
    pub sent: Option<u64>,
    /// The latest of the first probe's moment and those of successes.
    pub good: u64,
    /// Whether it was up at the last pump.
    pub up: bool,
    pub probe: Option<OpenProbe>,
}
