// What an event may mean to a connection.

use crate::Input;
use px_bytes::{Addr, Text};

/// An event, by what it may mean to a connection.
#[derive(Drop)]
pub enum EventKind {
    /// A connection of this number is accepted by a virtual server, from an address.
    Accepts(u32, Text, Addr),
    /// Something comes of a connection.
    Comes(u32, Input),
    /// The moment is set.
    Ticks(u64),
    /// A shared call is answered.
    Turns,
    /// The connection that is ready for the longest time goes on.
    Runs,
    /// A member of a pool is marked up or down.
    Marks(Text, Addr, bool),
}
