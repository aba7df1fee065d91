// What a proxy serves.

use irule_net::Groups;
use px_bytes::{Addr, Seq, Text};
use rule_loader::Rule;
use shared_store::Pools;

/// How a client's member is found again: it isn't, by the client's address, or by a cookie.
#[derive(Clone, Copy, PartialEq, Eq)]
pub enum Persist {
    None,
    SourceAddr,
    Cookie,
}

/// A virtual server.
#[derive(Drop)]
pub struct Virtual {
    pub name: Text,
    pub listen: Addr,
    pub http: bool,
    /// The name of its default pool, empty where it has none.
    pub pool: Text,
    pub persist: Persist,
    /// In seconds.
    pub persist_timeout: u32,
    /// The numbers of its rules, in their order.
    pub rules: Seq<usize>,
}

/// A configuration that was read.
#[derive(Drop)]
pub struct Config {
    /// How many units each body may spend.
    pub budget: u32,
    /// How many connections may be live at once.
    pub connections: u32,
    /// Seconds without bytes after which a connection is cut.
    pub idle: u32,
    /// How many rows of the session table may be live at once.
    pub rows: u32,
    /// The data groups and pools that rules name.
    pub groups: Groups,
    /// The pools from which servers are selected, as they are at the start.
    pub pools: Pools,
    /// All rules, in the order of their file.
    pub rules: Seq<Rule>,
    pub virtuals: Seq<Virtual>,
}
