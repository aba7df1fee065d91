// One connection, with what is known of its readiness.

ghost use Rattle.std.specs.Prelude.{◌<◌, length};
ghost use Rattle.px_outside.specs.Net.{ReadsWithin, WritesWithin};

use mio::event::Event;
use mio::net::TcpStream;
use mio::{Interest, Poll, Token};
use px_outside::{ConnectAnswer, ReadAnswer, WriteAnswer};
use std::io::{ErrorKind, Read, Write};
use std::net::Shutdown;

/// A connection. A read or a write asks the system only where its flag says that something may be
/// ready; the system reports each time that something becomes ready anew.
#[derive(Drop)]
pub(crate) struct Link {
    // None where the system refused it at once
    stream: Option<TcpStream>,
    readable: bool,
    writable: bool,
    // the end, or a failure, is behind what can still be read, and no event will tell of it again
    hung_up: bool,
    // room for writes is reported too
    both: bool,
    // the end was read, or the link failed
    over: bool,
    // Nagle's algorithm is on: what is written while small pieces aren't acknowledged yet would
    // wait
    delays: bool,
    // something was written
    wrote: bool,
}

impl Link {
    /// A link that was accepted. It can be written to, and room is reported only once it was full.
    pub(crate) fn accepted(stream: TcpStream) -> Link {
        Link {
            stream: Some(stream),
            readable: false,
            writable: true,
            hung_up: false,
            both: false,
            over: false,
            delays: true,
            wrote: false,
        }
    }

    /// A link that begins to connect. It is writable once it is connected.
    pub(crate) fn begun(stream: Option<TcpStream>) -> Link {
        let refused = stream.is_none();
        Link {
            stream,
            readable: false,
            writable: false,
            hung_up: refused,
            both: true,
            over: refused,
            delays: true,
            wrote: false,
        }
    }

    /// The system refused it at once.
    pub(crate) fn is_lost(&self) -> bool {
        self.stream.is_none()
    }

    /// Takes down what the system reports.
    pub(crate) fn mark(&mut self, event: &Event) {
        let over = event.is_read_closed() || event.is_error();
        self.hung_up = self.hung_up || over;
        self.readable = self.readable || event.is_readable() || over;
        self.writable = self.writable || event.is_writable() || over;
    }

    pub(crate) fn answer(&self) -> ConnectAnswer {
        if !self.writable && !self.hung_up {
            return ConnectAnswer::NotYet;
        }
        let Some(stream) = &self.stream else {
            return ConnectAnswer::Refused;
        };
        match stream.take_error() {
            Ok(None) => ConnectAnswer::Connected,
            _ => ConnectAnswer::Refused,
        }
    }

    /// A short read empties the link, and more bytes are reported anew. Where the end is known to
    /// follow, nothing more will be reported, so the link is read on until it.
    pub(crate) fn read(&mut self, room: &mut [u8]) -> ReadAnswer
        requires { 0 < length room.old }
        ensures { ReadsWithin (length room.old) result }
    {
        if !self.readable {
            return ReadAnswer::NotYet;
        }
        let Some(mut stream) = self.stream.as_ref() else {
            return ReadAnswer::Reset;
        };
        match stream.read(room) {
            Ok(0) => {
                self.readable = false;
                self.over = true;
                ReadAnswer::End
            }
            Ok(n) => {
                self.readable = n == room.len() || self.hung_up;
                ReadAnswer::Got(n)
            }
            Err(error) => {
                self.readable = false;
                match error.kind() {
                    ErrorKind::WouldBlock => ReadAnswer::NotYet,
                    _ => {
                        self.over = true;
                        ReadAnswer::Reset
                    }
                }
            }
        }
    }

    // The first write leaves at once, since nothing is on its way; so Nagle's algorithm ends at the
    // second, and a link that is written to once costs no call for it.
    fn end_delays(&mut self) {
        if !self.wrote || !self.delays {
            return;
        }
        self.delays = false;
        if let Some(stream) = &self.stream {
            let _ = stream.set_nodelay(true);
        }
    }

    pub(crate) fn write(&mut self, bytes: &[u8]) -> WriteAnswer
        requires { 0 < length bytes.now }
        ensures { WritesWithin (length bytes.now) result }
    {
        if !self.writable {
            return WriteAnswer::NotYet;
        }
        self.end_delays();
        let Some(mut stream) = self.stream.as_ref() else {
            return WriteAnswer::Reset;
        };
        match stream.write(bytes) {
            Ok(0) => {
                self.writable = false;
                WriteAnswer::NotYet
            }
            Ok(n) => {
                self.wrote = true;
                self.writable = n == bytes.len();
                WriteAnswer::Took(n)
            }
            Err(error) => {
                self.writable = false;
                match error.kind() {
                    ErrorKind::WouldBlock => WriteAnswer::NotYet,
                    _ => {
                        self.over = true;
                        WriteAnswer::Reset
                    }
                }
            }
        }
    }

    /// From the first full write on, has the system report room for writes, and what is ready anew.
    pub(crate) fn await_room(&mut self, poll: &Poll, token: Token) {
        if self.writable || self.both {
            return;
        }
        self.both = true;
        let interest = Interest::READABLE | Interest::WRITABLE;
        if let Some(stream) = &mut self.stream {
            self.hung_up = poll.registry().reregister(stream, token, interest).is_err()
                || self.hung_up;
        }
    }

    /// Ends the sending half. The link may have failed before, which its next call tells.
    pub(crate) fn finish(&self) {
        if let Some(stream) = &self.stream {
            let _ = stream.shutdown(Shutdown::Write);
        }
    }

    /// Its stream, where bytes of the peer may be unread, or come still, and whether the system has
    /// reported some.
    pub(crate) fn unread(self) -> Option<(TcpStream, bool)> {
        if self.over {
            return None;
        }
        match self.stream {
            Some(stream) => Some((stream, self.readable || self.hung_up)),
            None => None,
        }
    }
}
