// The scripts of links in memory.

use crate::{ConnectAnswer, Counts};
use px_bytes::{Addr, Text};

/// What a read of a link gives. Each read uses up the first item that is left.
#[derive(Drop)]
pub enum MemRead {
    /// These bytes; those that the room does not hold stay for the next read.
    Bytes(Text),
    NotYet,
    /// NotYet, and it stays, until the link of this number has given End; then it is passed.
    After(u32),
    End,
    Reset,
}

/// What a write to a link takes. Each write uses up the first item that is left.
#[derive(Clone, Copy, PartialEq, Eq)]
pub enum MemWrite {
    /// So many bytes at most; NotYet for none.
    Upto(usize),
    NotYet,
    /// NotYet, and it stays.
    Never,
    Reset,
}

/// Nothing comes where no item is left.
pub type MemReads = Vec<MemRead>;

/// All is taken where no item is left.
pub type MemWrites = Vec<MemWrite>;

/// What a link in memory does: the slot of the listener that gives it, or none where `connect`
/// does; where it comes from; whether it is connected.
#[derive(Drop)]
pub struct MemScript {
    pub slot: Option<u32>,
    pub from: Addr,
    pub connect: ConnectAnswer,
    pub reads: MemReads,
    pub writes: MemWrites,
}

/// The numbers of the calls that fail, of each kind, the first being 1.
#[derive(Drop)]
pub struct NetFails {
    pub listen: Counts,
    pub wait: Counts,
    pub accept: Counts,
    pub connect: Counts,
}
