// Whose a link is.

use px_bytes::Side;

/// A side of a connection.
#[derive(Clone, Copy, PartialEq, Eq)]
pub struct LinkOwner {
    pub conn: u32,
    pub side: Side,
}
