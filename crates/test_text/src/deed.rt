// What is done in a test.

use px_bytes::{Addr, Side, Text};

/// A name, and where its word stands.
#[derive(Drop)]
pub struct PlacedName {
    pub place: usize,
    pub name: Text,
}

/// A server's address, and where its word stands.
#[derive(Clone, Copy)]
pub struct PlacedAddr {
    pub place: usize,
    pub addr: Addr,
}

/// How a server meets those that connect.
#[derive(Clone, Copy)]
pub enum Meeting {
    Connects,
    Refuses,
    /// It doesn't answer yet.
    Waits,
}

/// What a client does, or a client's server.
#[derive(Drop)]
pub enum PeerDeed {
    Sends(Text),
    Ends,
    Resets,
    /// From now on it takes at most so many bytes behind each step; all, where no number is said.
    Takes(Option<u64>),
}

/// What is done. A client goes by its number among those of its test, from 0.
#[derive(Drop)]
pub enum Deed {
    /// A client comes to a virtual server.
    Comes {
        client: usize,
        from: Addr,
        to: PlacedName,
    },
    /// A client, or its present server, does something.
    Does {
        side: Side,
        client: usize,
        deed: PeerDeed,
    },
    /// A server meets connects so from now on.
    Meets {
        server: PlacedAddr,
        meeting: Meeting,
    },
    /// A member of a pool is up or down from now on.
    Marks {
        pool: PlacedName,
        member: PlacedAddr,
        up: bool,
    },
    /// So many milliseconds pass.
    Waits(u64),
}
