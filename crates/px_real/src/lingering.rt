// Closed links whose peers still send.

use mio::net::TcpStream;
use std::alloc::{AllocError, Global};
use std::io::{ErrorKind, Read};
use std::net::Shutdown;

/// The most links that linger at once.
const MOST: usize = 64;

/// How long one lingers, in milliseconds, and how many bytes of it are thrown away.
const MILLIS: u64 = 1_000;

const BYTES: usize = 65_536;

/// Closed links that were not read to their ends. A socket that is closed with unread bytes resets
/// its connection, and the peer may then lose the last bytes that were sent to it. So it ends its
/// sending half, and what still comes is thrown away for a while.
#[derive(Drop)]
pub(crate) struct Lingering {
    // the one that was closed first is first
    held: Vec<Held>,
    room: Vec<u8>,
}

#[derive(Drop)]
struct Held {
    number: u32,
    stream: TcpStream,
    until: u64,
    left: usize,
}

impl Lingering {
    pub(crate) fn new(alloc: Global) -> Result<Lingering, AllocError> {
        Ok(Lingering {
            held: Vec::with_capacity(alloc, MOST)?,
            room: Vec::from_elem(alloc, 0u8, 4_096)?,
        })
    }

    pub(crate) fn is_empty(&self) -> bool {
        self.held.is_empty()
    }

    /// Keeps the stream of a link from this moment on, where there is room. The system reports it
    /// by the link's number still, each time that something comes anew.
    pub(crate) fn keep(&mut self, number: u32, stream: TcpStream, reported: bool, now: u64) {
        if self.held.len() >= MOST || stream.shutdown(Shutdown::Write).is_err() {
            return;
        }
        let mut held = Held {
            number,
            stream,
            until: now.saturating_add(MILLIS),
            left: BYTES,
        };
        if reported && !held.stays(&mut self.room) {
            return;
        }
        let _ = self.held.push(held);
    }

    /// Throws away what came of a link, and closes it where it is over.
    pub(crate) fn drain(&mut self, number: u32) {
        let Some(at) = self.held.iter().position(|held| held.number == number) else {
            return;
        };
        let stays = match self.held.get_mut(at) {
            Some(held) => held.stays(&mut self.room),
            None => true,
        };
        if !stays {
            self.held.remove(at);
        }
    }

    /// Closes those that lingered long enough.
    pub(crate) fn expire(&mut self, now: u64) {
        match self.held.first() {
            Some(held) if held.until <= now => self.held.retain(|held| now < held.until),
            _ => {}
        }
    }
}

impl Held {
    // Reads all that came. Whether it lingers on.
    fn stays(&mut self, room: &mut [u8]) -> bool {
        for _ in 0..BYTES {
            match self.stream.read(room) {
                Ok(n) if 0 < n && n < self.left => self.left -= n,
                Ok(_) => return false,
                Err(error) => return error.kind() == ErrorKind::WouldBlock,
            }
        }
        false
    }
}
