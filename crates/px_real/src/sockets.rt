// Sockets as the system gives them.

use crate::link::Link;
use mio::net::{TcpListener, TcpStream};
use mio::{Interest, Poll, Token};
use px_bytes::Addr;
use std::io::{self, ErrorKind};
use std::net::{IpAddr, Ipv4Addr, Net, SocketAddr};

/// The token of a listener is this and its slot; that of a link is its number.
pub(crate) const LISTENERS: usize = 1 << 32;

/// How many connections that were broken off are passed over in one accept.
const TRIES: u32 = 16;

/// The error of a process that has as many descriptors as it may have.
const FULL: i32 = 24;

/// The errors of a system that is out of descriptors, of memory or of buffers.
const SCARCE: [i32; 3] = [23, 12, 105];

/// What an accept gives.
#[derive(Drop)]
pub(crate) enum Taken {
    One(TcpStream, Addr),
    NotYet,
    // the connection was broken off while it waited
    Broken,
    // the system has run out of descriptors or memory
    Scarce,
    // the process has as many descriptors as it may have
    Full,
    Failed,
}

fn address(of: Addr) -> SocketAddr {
    SocketAddr::from((Ipv4Addr::from(of.ip), of.port))
}

fn addr_of(from: SocketAddr) -> Addr {
    let ip = match from.ip() {
        IpAddr::V4(ip) => ip.to_bits(),
        IpAddr::V6(_) => 0,
    };
    Addr {
        ip,
        port: from.port(),
    }
}

/// Listens at an address.
pub(crate) fn open<R: Net>(rt: &R, poll: &Poll, slot: u32, at: Addr) -> io::Result<TcpListener> {
    let mut socket = TcpListener::bind(rt, address(at))?;
    let token = Token(LISTENERS + slot as usize);
    poll.registry()
        .register(&mut socket, token, Interest::READABLE)?;
    Ok(socket)
}

fn connected<R: Net>(rt: &R, poll: &Poll, link: u32, to: Addr) -> io::Result<TcpStream> {
    let mut stream = TcpStream::connect(rt, address(to))?;
    let interest = Interest::READABLE | Interest::WRITABLE;
    poll.registry()
        .register(&mut stream, Token(link as usize), interest)?;
    Ok(stream)
}

/// Begins to connect.
pub(crate) fn begin<R: Net>(rt: &R, poll: &Poll, link: u32, to: Addr) -> Link {
    Link::begun(connected(rt, poll, link, to).ok())
}

/// The next connection of a listener that was not broken off.
pub(crate) fn take(listener: &TcpListener, poll: &Poll, link: u32) -> Taken {
    for _ in 0..TRIES {
        match take_one(listener, poll, link) {
            Taken::Broken => {}
            taken => return taken,
        }
    }
    Taken::Scarce
}

fn take_one(listener: &TcpListener, poll: &Poll, link: u32) -> Taken {
    match listener.accept() {
        Ok((stream, from)) => registered(stream, from, poll, link),
        Err(error) => fault_of(&error),
    }
}

fn registered(mut stream: TcpStream, from: SocketAddr, poll: &Poll, link: u32) -> Taken {
    let token = Token(link as usize);
    match poll
        .registry()
        .register(&mut stream, token, Interest::READABLE)
    {
        Ok(()) => Taken::One(stream, addr_of(from)),
        Err(_) => Taken::Scarce,
    }
}

fn fault_of(error: &io::Error) -> Taken {
    match error.kind() {
        ErrorKind::WouldBlock => Taken::NotYet,
        ErrorKind::ConnectionAborted
        | ErrorKind::ConnectionReset
        | ErrorKind::HostUnreachable
        | ErrorKind::NetworkUnreachable
        | ErrorKind::NetworkDown
        | ErrorKind::Interrupted => Taken::Broken,
        ErrorKind::OutOfMemory => Taken::Scarce,
        _ => match error.raw_os_error() {
            Some(FULL) => Taken::Full,
            Some(number) if SCARCE.contains(&number) => Taken::Scarce,
            _ => Taken::Failed,
        },
    }
}
