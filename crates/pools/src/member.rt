// Members of pools.

use px_bytes::{Addr, Seq};

/// How the members of a pool are taken in turn: each once in a round, or each as often as its ratio
/// says.
#[derive(Clone, Copy, PartialEq, Eq)]
pub enum Method {
    RoundRobin,
    Ratio,
}

/// A server, how often it is taken in a round by its ratio, and its priority: the members of one
/// priority are a group.
#[derive(Clone, Copy, PartialEq, Eq)]
pub struct Member {
    pub addr: Addr,
    pub ratio: u8,
    pub priority: u8,
}

/// Members in the order of the file.
pub type Members = Seq<Member>;

/// A member, and whether it is up.
#[derive(Clone, Copy, PartialEq, Eq)]
pub struct Marked {
    pub member: Member,
    pub up: bool,
}

/// What a selection asks for: any member; one of an address, and any where it isn't up; or that one
/// only.
#[derive(Clone, Copy, PartialEq, Eq)]
pub enum Wanted {
    Any,
    Wish(Addr),
    Only(Addr),
}
