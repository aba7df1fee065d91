// Marks of members.

use px_bytes::{Addr, Seq, Text};

/// A member of a pool is up or down from now on.
#[derive(Drop)]
pub struct Mark {
    pub pool: Text,
    pub member: Addr,
    pub up: bool,
}

/// Marks in order.
pub type Marks = Seq<Mark>;
