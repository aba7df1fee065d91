// What happens in a run.

use core_events::{Cause, Event};
use px_bytes::{Addr, Side, Text, Texts};

/// Something that happened in a run, or was asked of it.
#[derive(Drop)]
pub enum RunEntry {
    /// An event was given.
    Given(Event),
    /// A side of a connection took these bytes.
    Took { conn: u32, side: Side, bytes: Text },
    /// A rule logged a line; RULE_INIT does so for connection 0.
    Logged { conn: u32, text: Text },
    /// A server was asked for a connection.
    Asked { conn: u32, to: Addr },
    /// A connection began to finish.
    Finished { conn: u32, cause: Cause },
    /// A connection is over.
    Over { conn: u32 },
    /// A call of the session table was answered at a moment; the words are those behind `table`.
    Called { moment: u64, words: Texts },
    /// A rest begins.
    Rests,
    /// The question of this step was asked.
    Asks { step: usize },
}

/// A client that came, by its number among those of its test, and its connection.
#[derive(Clone, Copy)]
pub struct ClientConn {
    pub client: usize,
    pub conn: u32,
}
