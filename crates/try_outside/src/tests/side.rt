// A net with what its tests need.

use px_bytes::Addr;
use px_outside::{Accepted, Clock, ConnectAnswer, Net, ReadAnswer, ReadyList, WriteAnswer};
use px_real::{MioNet, RealClock};
use std::io;
use std::net::{Ipv4Addr, SocketAddr, TcpListener, TcpStream};

/// The address 127.0.0.1.
const HERE: u32 = 0x7f00_0001;

/// How often something is waited for, 20 ms each time.
const WAITS: u32 = 400;

/// A port of this machine that was free a moment ago.
pub fn free_port(rt: &HostRuntime) -> io::Result<u16> {
    let listener = TcpListener::bind(rt, SocketAddr::from((Ipv4Addr::LOCALHOST, 0)))?;
    Ok(listener.local_addr()?.port())
}

/// A connection from outside the net.
pub fn peer(rt: &HostRuntime, port: u16) -> io::Result<TcpStream> {
    TcpStream::connect(rt, SocketAddr::from((Ipv4Addr::LOCALHOST, port)))
}

/// A net that listens at a port under slot 0, the clock that it goes by, what it listed last, and
/// the numbers of the ends of its connection to itself.
#[derive(Drop)]
pub struct Tried {
    pub net: MioNet<HostRuntime>,
    pub clock: RealClock<HostRuntime>,
    pub listed: ReadyList,
    pub port: u16,
    pub near: u32,
    pub far: u32,
    // it can't listen, or a wait failed
    pub failed: bool,
}

impl Tried {
    pub fn new(rt: &HostRuntime) -> Option<Tried> {
        let port = free_port(rt).ok()?;
        let clock = RealClock::new(*rt);
        let mut net = MioNet::new(rt.alloc(), *rt, clock.beside(*rt)).ok()?;
        let failed = net.listen(0, Addr { ip: HERE, port }).is_err();
        Some(Tried {
            net,
            clock,
            listed: ReadyList::new(rt.alloc()),
            port,
            near: 0,
            far: 0,
            failed,
        })
    }

    pub fn wait(&mut self) {
        let until = self.clock.now().saturating_add(20);
        if self.net.wait(until, &mut self.listed).is_err() {
            self.failed = true;
        }
    }

    /// The next link of slot 0; 0 where none comes.
    pub fn accepted(&mut self) -> u32 {
        for _ in 0..WAITS {
            if let Ok(Accepted::One { link, .. }) = self.net.accept(0) {
                return link;
            }
            self.wait();
        }
        0
    }

    /// What a link answers to a connect.
    pub fn answer(&mut self, link: u32) -> ConnectAnswer {
        for _ in 0..WAITS {
            let answer = self.net.connect_answer(link);
            if answer != ConnectAnswer::NotYet {
                return answer;
            }
            self.wait();
        }
        ConnectAnswer::NotYet
    }

    /// The next answer of a read other than NotYet.
    pub fn read(&mut self, link: u32, room: &mut [u8; 64]) -> ReadAnswer {
        for _ in 0..WAITS {
            let answer = self.net.read(link, room);
            if answer != ReadAnswer::NotYet {
                return answer;
            }
            self.wait();
        }
        ReadAnswer::NotYet
    }

    /// Whether a link takes all of the bytes.
    pub fn takes(&mut self, link: u32, bytes: &[u8]) -> bool {
        !bytes.is_empty() && self.net.write(link, bytes) == WriteAnswer::Took(bytes.len())
    }

    /// Connects the net to itself.
    pub fn joins(&mut self) -> bool {
        let at = Addr {
            ip: HERE,
            port: self.port,
        };
        self.near = self.net.connect(at).unwrap_or(0);
        self.far = self.accepted();
        self.answer(self.near) == ConnectAnswer::Connected
    }

    /// Whether a port refuses a connect. The net closes the link, so it answers nothing more.
    pub fn is_refused(&mut self, port: u16) -> bool {
        let link = self.net.connect(Addr { ip: HERE, port }).unwrap_or(0);
        let answer = self.answer(link);
        let again = self.net.connect_answer(link);
        let read = self.net.read(link, &mut [0u8; 8]);
        answer == ConnectAnswer::Refused
            && again == ConnectAnswer::NotYet
            && read == ReadAnswer::NotYet
            && self.net.links() == 0
    }

    /// A peer from outside is gone, with bytes unread that its link, now the far end, took.
    pub fn loses_a_peer(&mut self, rt: &HostRuntime) -> bool {
        match peer(rt, self.port) {
            Ok(_peer) => {
                self.far = self.accepted();
                self.takes(self.far, b"unread")
            }
            Err(_) => false,
        }
    }

    /// Whether a wait for nothing ends in its time, and lists nothing.
    pub fn rests(&mut self) -> bool {
        let start = self.clock.now();
        let waited = self.net.wait(start.saturating_add(60), &mut self.listed);
        let took = self.clock.now().saturating_sub(start);
        waited.is_ok() && took >= 59 && took < 5_000 && self.listed.len() == 0
    }
}
