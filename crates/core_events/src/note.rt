// What is noted of a connection.

use px_bytes::{Addr, FaultKind, HttpFault, Reply, RoomySeq, Side, Text, Texts};

/// Why a connection was cut.
#[derive(Clone, Copy, PartialEq, Eq)]
pub enum CutReason {
    /// The client reset its connection.
    ClientReset,
    /// The server reset its connection.
    ServerReset,
    /// Nothing came for too long.
    Idle,
}

/// Why a connection finishes.
#[derive(Clone, Copy, PartialEq, Eq)]
pub enum Cause {
    /// Both ends closed, or a rule closed it.
    Closed,
    /// A rule raised a fault that nothing caught.
    Tcl(FaultKind),
    /// A message of HTTP couldn't be read.
    Http(HttpFault),
    /// No server could be selected.
    Unselected,
    /// A rule rejected it.
    Rejected,
    /// It was cut from outside.
    Cut(CutReason),
    /// Memory was refused.
    Memory,
}

/// One thing that came of an event. Moments are milliseconds.
#[derive(Drop)]
pub enum Note {
    /// A server connection to this address is to be opened.
    Connect {
        conn: u32,
        to: Addr,
    },
    /// A shared call sleeps until this moment.
    Sleep {
        conn: u32,
        until: u64,
    },
    /// A shared call was answered at this moment.
    History {
        conn: u32,
        moment: u64,
        call: Texts,
        reply: Reply,
    },
    /// A rule logged a line.
    Log {
        conn: u32,
        text: Text,
    },
    /// So many bytes that came from a side were passed on.
    Pass {
        conn: u32,
        side: Side,
        n: usize,
    },
    /// A collect was met: the bytes that came from this side go to its event.
    Fired {
        conn: u32,
        side: Side,
    },
    /// Before a later request: whether the server connection is used again.
    Reuse {
        conn: u32,
        kept: bool,
    },
    /// The connection began to finish.
    Finish {
        conn: u32,
        cause: Cause,
    },
    /// Nothing more is sent to this side.
    HalfClose {
        conn: u32,
        side: Side,
    },
    /// Nothing more is sent to the server.
    CloseServer {
        conn: u32,
    },
    /// Nothing more is sent to the client.
    CloseClient {
        conn: u32,
    },
    /// The connection is over; so many bytes that were queued on it were never taken.
    Ended {
        conn: u32,
        dropped: usize,
    },
}

/// Notes in order, with room for those of the next event.
pub type Notes = RoomySeq<Note>;
