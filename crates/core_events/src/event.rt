// What happens to the core.

ghost use Rattle.std.specs.Prelude.{◌≡◌};
ghost use Rattle.core_events.specs.Kinds.{kind_of};

use crate::{EventKind, Input};
use px_bytes::{Addr, Side, Text};

/// An event: what the outside did, or a turn that the core is given.
#[derive(Drop)]
pub enum Event {
    /// A client connects from `from` to the virtual server `vs`; its connection is numbered `conn`.
    Accept { conn: u32, vs: Text, from: Addr },
    /// Bytes came from the client.
    FromClient { conn: u32, bytes: Text },
    /// The client sends no more.
    ClientEnd { conn: u32 },
    /// The client reset its connection.
    ClientReset { conn: u32 },
    /// The server that was asked for took the connection.
    Connected { conn: u32 },
    /// The server that was asked for refused.
    Refused { conn: u32 },
    /// Bytes came from the server.
    FromServer { conn: u32, bytes: Text },
    /// The server sends no more.
    ServerEnd { conn: u32 },
    /// The server reset its connection.
    ServerReset { conn: u32 },
    /// The client took the first `n` bytes that were pending to it.
    ClientTook { conn: u32, n: usize },
    /// The server took the first `n` bytes that were pending to it.
    ServerTook { conn: u32, n: usize },
    /// It is this moment, in milliseconds.
    Tick { moment: u64 },
    /// The shared call that waits for the longest time is answered.
    Turn,
    /// The connection that is ready for the longest time goes on.
    Run,
    /// A member of a pool is up or down from now on.
    Mark { pool: Text, member: Addr, up: bool },
}

impl Event {
    /// What it may mean to a connection.
    pub fn kind(self) -> EventKind
        ensures { result ≡ kind_of self }
    {
        match self {
            Event::Accept { conn, vs, from } => EventKind::Accepts(conn, vs, from),
            Event::FromClient { conn, bytes } => {
                EventKind::Comes(conn, Input::Bytes(Side::Client, bytes))
            }
            Event::ClientEnd { conn } => EventKind::Comes(conn, Input::Ends(Side::Client)),
            Event::ClientReset { conn } => EventKind::Comes(conn, Input::Resets(Side::Client)),
            Event::Connected { conn } => EventKind::Comes(conn, Input::Connects(true)),
            Event::Refused { conn } => EventKind::Comes(conn, Input::Connects(false)),
            Event::FromServer { conn, bytes } => {
                EventKind::Comes(conn, Input::Bytes(Side::Server, bytes))
            }
            Event::ServerEnd { conn } => EventKind::Comes(conn, Input::Ends(Side::Server)),
            Event::ServerReset { conn } => EventKind::Comes(conn, Input::Resets(Side::Server)),
            Event::ClientTook { conn, n } => EventKind::Comes(conn, Input::Takes(Side::Client, n)),
            Event::ServerTook { conn, n } => EventKind::Comes(conn, Input::Takes(Side::Server, n)),
            Event::Tick { moment } => EventKind::Ticks(moment),
            Event::Turn => EventKind::Turns,
            Event::Run => EventKind::Runs,
            Event::Mark { pool, member, up } => EventKind::Marks(pool, member, up),
        }
    }
}
