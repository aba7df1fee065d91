// What the network commands of a connection read and leave.

ghost use Rattle.std.specs.Prelude.{◌≡◌};
ghost use Rattle.irule_net.specs.State.{begun, new_state, no_collect, no_wishes};

use px_bytes::{Addr, Text};
use std::alloc::Global;

/// Where a server is to come from: the last `pool` or `node`. `Default` is the virtual server's
/// pool.
#[derive(Drop)]
pub enum Target {
    Default,
    PoolOf(Text),
    MemberOf(Text, Addr),
    NodeAt(Addr),
}

/// The server that was selected, and the pool that it came from. The name is empty for a node.
#[derive(Drop)]
pub struct Selected {
    pub pool: Text,
    pub addr: Addr,
}

/// What the collect of a side asks for: nothing, or so many bytes beyond those that are held.
#[derive(Clone, Copy, PartialEq, Eq)]
pub enum Asks {
    NotAsked,
    Stated(usize),
}

/// The collect of a side, and the bytes that it holds.
#[derive(Drop)]
pub struct Collected {
    pub asks: Asks,
    pub held: Text,
}

/// How the bodies of an event end the connection.
#[derive(Clone, Copy, PartialEq, Eq)]
pub enum Ending {
    Rejects,
    Closes,
}

/// What the bodies of one event did and asked for: how many bytes they sent by `TCP::respond`, how
/// many they released, whether they released at all, asked for another selection or gave up the
/// server connection, and how they end the connection, which the first of them says.
#[derive(Clone, Copy, PartialEq, Eq)]
pub struct Wishes {
    pub sent: usize,
    pub let_go: usize,
    pub released: bool,
    pub reselects: bool,
    pub detaches: bool,
    pub ends: Option<Ending>,
}

/// What the network commands of a connection read and leave. The first four are given: the client's
/// address, and the port, default pool (empty where there is none) and HTTP of the virtual server.
/// `reselects` counts those of the request. `loose` are bytes of the client that were released
/// before there was a server, and `relays` says that there is one.
#[derive(Drop)]
pub struct NetState {
    pub from: Addr,
    pub port: u16,
    pub pool: Text,
    pub http: bool,
    pub target: Target,
    pub selected: Option<Selected>,
    pub reselects: u32,
    pub client: Collected,
    pub server: Collected,
    pub loose: Text,
    pub relays: bool,
    pub wishes: Wishes,
}

impl NetState {
    /// The state of a connection that was just accepted.
    pub fn new(alloc: Global, from: Addr, port: u16, pool: Text, http: bool) -> NetState
        ensures { result ≡ new_state from port pool http }
    {
        NetState {
            from,
            port,
            pool,
            http,
            target: Target::Default,
            selected: None,
            reselects: 0,
            client: no_collect(alloc),
            server: no_collect(alloc),
            loose: Text::empty(alloc),
            relays: false,
            wishes: no_wishes(),
        }
    }

    /// An event begins: its bodies have done nothing yet.
    pub fn begin(&mut self)
        ensures { self.new ≡ begun self.old }
    {
        self.wishes = no_wishes();
    }
}

pub(crate) fn no_collect(alloc: Global) -> Collected
    ensures { result ≡ no_collect }
{
    Collected {
        asks: Asks::NotAsked,
        held: Text::empty(alloc),
    }
}

fn no_wishes() -> Wishes
    ensures { result ≡ no_wishes }
{
    Wishes {
        sent: 0,
        let_go: 0,
        released: false,
        reselects: false,
        detaches: false,
        ends: None,
    }
}
