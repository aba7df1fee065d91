// What a test expects.

use core_events::Cause;
use px_bytes::{Addr, Seq, Side, Text};

/// What is to be found: this text, one that matches a pattern, or nothing.
#[derive(Drop)]
pub enum Wished {
    Exactly(Text),
    Like(Text),
    Nothing,
}

/// A row of the session table.
#[derive(Drop)]
pub struct WishedRow {
    pub subtable: Text,
    pub key: Text,
    /// Its value; none where there is to be no such row.
    pub value: Option<Text>,
}

/// What a test expects. A client goes by its number among those of its test, from 0.
#[derive(Drop)]
pub enum Expectation {
    /// What a client, or its server, took since this was asked last.
    Gets {
        side: Side,
        client: usize,
        what: Wished,
    },
    /// Exactly so many of these clients took this.
    SomeGet {
        count: u64,
        clients: Seq<usize>,
        what: Wished,
    },
    /// Which server was asked last for a client.
    Server {
        client: usize,
        addr: Option<Addr>,
    },
    /// The client's connection is over, for this cause.
    Over {
        client: usize,
        cause: Cause,
    },
    Open {
        client: usize,
    },
    /// The next line that was logged for a client; for RULE_INIT, where no client is said.
    Log {
        of: Option<usize>,
        what: Wished,
    },
    Row(WishedRow),
}
