// What sockets answer.

use px_bytes::{Addr, Seq};

/// Where something may be ready: a listener by its slot, or a link by its number.
#[derive(Clone, Copy, PartialEq, Eq)]
pub enum ReadyAt {
    Listener(u32),
    Link(u32),
}

/// Where something may be ready, in order.
pub type ReadyList = Seq<ReadyAt>;

/// A connection that was waiting at a listener.
#[derive(Clone, Copy, PartialEq, Eq)]
pub enum Accepted {
    One { link: u32, from: Addr },
    NotYet,
}

#[derive(Clone, Copy, PartialEq, Eq)]
pub enum ReadAnswer {
    /// So many bytes stand at the start of the room.
    Got(usize),
    /// Nothing is there, and more may come.
    NotYet,
    /// The peer sends no more.
    End,
    /// The link failed.
    Reset,
}

#[derive(Clone, Copy, PartialEq, Eq)]
pub enum WriteAnswer {
    /// So many of the bytes were taken, from the first on.
    Took(usize),
    /// There is no room, and there may be later.
    NotYet,
    /// The link failed.
    Reset,
}

#[derive(Clone, Copy, PartialEq, Eq)]
pub enum ConnectAnswer {
    Connected,
    /// The link is closed by the net itself.
    Refused,
    NotYet,
}
