// What comes of a connection.

use px_bytes::{Side, Text};

/// What comes of a connection from outside.
#[derive(Drop)]
pub enum Input {
    /// Bytes came of a side.
    Bytes(Side, Text),
    /// A side sends no more.
    Ends(Side),
    /// A side was reset.
    Resets(Side),
    /// Whether the server connection that it asked for was made.
    Connects(bool),
    /// A side took the first bytes that were pending to it, so many.
    Takes(Side, usize),
}
