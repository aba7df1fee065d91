// Clients and servers in memory.

use px_bytes::{Addr, M, Text};
use px_outside::{ConnectAnswer, MemLink, MemRead, MemReads, MemScript, MemWrite};
use std::alloc::Global;

/// Who stands at the other end of a link: it waits for the end of another link, where it does,
/// sends some bytes, and ends; it takes as it does, and then all.
#[derive(Clone, Copy)]
pub(super) struct Peer {
    slot: Option<u32>,
    from: Addr,
    connect: ConnectAnswer,
    after: Option<u32>,
    sends: &'static [u8],
    takes: &'static [MemWrite],
}

/// A client that sends one byte.
pub(super) const CLIENT: Peer = Peer {
    slot: Some(0),
    from: Addr {
        ip: 0x0a00_0009,
        port: 4000,
    },
    connect: ConnectAnswer::NotYet,
    after: None,
    sends: b"G",
    takes: &[],
};

/// A client that sends a request.
pub(super) const ASKS: Peer = Peer {
    sends: b"GET / HTTP/1.1\r\nHost: a\r\n\r\n",
    ..CLIENT
};

/// A client that waits for the end of the second link, and sends a request.
pub(super) const ASKS_LATER: Peer = Peer {
    after: Some(2),
    ..ASKS
};

/// A client that waits for the end of the second link, and takes an answer by and by.
pub(super) const SLOW: Peer = Peer {
    after: Some(2),
    takes: &[
        MemWrite::NotYet,
        MemWrite::Upto(1),
        MemWrite::NotYet,
        MemWrite::Upto(2),
    ],
    ..CLIENT
};

/// A server that takes the connection, and sends two bytes.
pub(super) const SERVER: Peer = Peer {
    slot: None,
    from: Addr { ip: 0, port: 0 },
    connect: ConnectAnswer::Connected,
    after: None,
    sends: b"ok",
    takes: &[],
};

/// A server that refuses the connection.
pub(super) const REFUSES: Peer = Peer {
    connect: ConnectAnswer::Refused,
    ..SERVER
};

pub(super) fn links(alloc: Global, peers: &[Peer]) -> M<Vec<MemLink>> {
    let mut links = Vec::new(alloc);
    for peer in peers {
        links.push(link(alloc, peer)?)?;
    }
    Ok(links)
}

fn link(alloc: Global, peer: &Peer) -> M<MemLink> {
    let writes = peer.takes.to_vec(alloc)?;
    let script = MemScript {
        slot: peer.slot,
        from: peer.from,
        connect: peer.connect,
        reads: reads(alloc, peer)?,
        writes,
    };
    Ok(MemLink::new(alloc, script))
}

fn reads(alloc: Global, peer: &Peer) -> M<MemReads> {
    let mut reads = MemReads::new(alloc);
    if let Some(link) = peer.after {
        reads.push(MemRead::After(link))?;
    }
    reads.push(MemRead::Bytes(Text::new(alloc, peer.sends)?))?;
    reads.push(MemRead::End)?;
    Ok(reads)
}
