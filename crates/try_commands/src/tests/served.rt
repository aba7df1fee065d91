// Serving over a net, a clock, files and a journal in memory.

use super::Shown;
use super::made::{FIRST_WAIT, FIRST_WRITE, Fails, Made, NOTHING, SECOND_WAIT, calls};
use super::offline::{self, Offline, REPLAYED};
use super::peers::{CLIENT, Peer, REFUSES, SERVER, SLOW, links};
use super::texts::ANSWERED;
use super::wanted::{EMPTY, Wanted};
use proxy::{Status, serve_command};
use px_bytes::{M, Memory, Text};
use px_outside::{Counts, MemClock, MemNet, NetFails};
use std::alloc::Global;

/// A `serve`, who connects, which calls fail, and what it comes to: its status, what the first two
/// links take, the journal, and a replay of it.
#[derive(Clone, Copy)]
pub(super) struct Row {
    pub(super) shows: &'static str,
    pub(super) words: &'static str,
    pub(super) peers: &'static [Peer],
    pub(super) fails: Fails,
    pub(super) status: u8,
    pub(super) first: Wanted,
    pub(super) second: Wanted,
    pub(super) journal: Wanted,
    pub(super) replay: Option<Offline>,
}

pub(super) const ANSWERS: Row = Row {
    shows: "a client is answered, and the journal replayed",
    words: "serve hi.toml --conns 1 --turns=50",
    peers: &[CLIENT],
    fails: NOTHING,
    status: 0,
    first: Wanted::Whole(b"hi 7"),
    second: EMPTY,
    journal: Wanted::Anything,
    replay: Some(Offline {
        words: "replay hi.toml journal",
        written: Wanted::Begins(ANSWERED),
        ..REPLAYED
    }),
};

/// Nothing is looked at but the status.
pub(super) const ENDS: Row = Row {
    shows: "one turn without a client",
    words: "serve hi.toml --turns 1",
    peers: &[],
    status: 9,
    first: Wanted::Anything,
    second: Wanted::Anything,
    replay: None,
    ..ANSWERS
};

/// Its journal is that of the next one.
const ONE_TURN: Row = Row {
    shows: "one turn with a client",
    peers: &[CLIENT],
    ..ENDS
};

const SECOND_WAIT_FAILS: Row = Row {
    shows: "the second wait fails",
    words: "serve hi.toml",
    fails: SECOND_WAIT,
    status: 8,
    first: Wanted::Whole(b"hi 7"),
    ..ONE_TURN
};

const RELAYS: Row = Row {
    shows: "bytes are passed on both ways, and the journal replayed",
    words: "serve pool.toml --conns=1 --turns=50",
    peers: &[CLIENT, SERVER],
    first: Wanted::Whole(b"ok"),
    second: Wanted::Whole(b"G"),
    replay: Some(Offline {
        words: "replay pool.toml journal",
        written: Wanted::Has(
            b"> finish 1 closed\n",
            b"> client 1 6f6b\n> server 1 1 47\n> end ",
        ),
        ..REPLAYED
    }),
    ..ANSWERS
};

static ROWS: [Row; 12] = [
    ANSWERS,
    Row {
        shows: "a client takes byte by byte beside another",
        words: "serve --conns 2 hi.toml --turns 50",
        peers: &[SLOW, CLIENT],
        second: Wanted::Whole(b"hi 7"),
        replay: None,
        ..ANSWERS
    },
    ENDS,
    ONE_TURN,
    SECOND_WAIT_FAILS,
    Row {
        shows: "the first wait fails",
        words: "serve hi.toml --conns 1",
        peers: &[CLIENT],
        fails: FIRST_WAIT,
        status: 8,
        first: EMPTY,
        ..ENDS
    },
    Row {
        shows: "a write of the journal fails",
        words: "serve hi.toml --conns 1",
        peers: &[CLIENT],
        fails: FIRST_WRITE,
        status: 6,
        journal: EMPTY,
        ..ENDS
    },
    Row {
        shows: "no connection may be served",
        words: "serve hi.toml --conns 0",
        status: 2,
        ..ENDS
    },
    Row {
        shows: "the file is no configuration",
        words: "serve bad.toml",
        status: 3,
        ..ENDS
    },
    Row {
        shows: "there is no such file",
        words: "serve other.toml",
        status: 5,
        ..ENDS
    },
    RELAYS,
    Row {
        shows: "the server refuses",
        peers: &[CLIENT, REFUSES],
        first: EMPTY,
        second: EMPTY,
        journal: Wanted::Has(b"refused 1\n", b"> finish 1 unselected\n"),
        replay: None,
        ..RELAYS
    },
];

#[test]
fn serving_comes_to_what_it_must(rt: HostRuntime) -> Shown {
    for row in ROWS.iter() {
        if !comes_true(rt.alloc(), row).unwrap_or(false) {
            return Err(row.shows);
        }
    }
    Ok(())
}

/// Their journals are the same: the one that ends by a failing wait stands.
static ALIKE: [Row; 2] = [ONE_TURN, SECOND_WAIT_FAILS];

#[test]
fn the_journal_stands_where_the_second_wait_fails(rt: HostRuntime) -> Shown {
    match are_alike(rt.alloc(), &ALIKE[0], &ALIKE[1]) {
        Ok(true) => Ok(()),
        _ => Err("the journal is not that of one turn"),
    }
}

fn are_alike(alloc: Global, one: &Row, other: &Row) -> M<bool> {
    let first = journal_of(alloc, one)?;
    let second = journal_of(alloc, other)?;
    Ok(first.as_bytes() == second.as_bytes())
}

fn journal_of(alloc: Global, row: &Row) -> M<Text> {
    let mut served = Served::new(alloc, row)?;
    served.serve(alloc);
    served.made.sink.written().copy()
}

/// Whether a row comes to what it must.
pub(super) fn comes_true(alloc: Global, row: &Row) -> M<bool> {
    let mut served = Served::new(alloc, row)?;
    served.ends(alloc, row)
}

/// A `serve`, and all that it reaches outside.
#[derive(Drop)]
struct Served {
    made: Made,
    net: MemNet,
    clock: MemClock,
}

impl Served {
    fn new(alloc: Global, row: &Row) -> M<Served> {
        let made = Made::new(alloc, row.words, b"", row.fails)?;
        let net = net(alloc, row)?;
        let clock = MemClock::new(Counts::new(alloc));
        Ok(Served { made, net, clock })
    }

    fn serve(&mut self, alloc: Global) -> Status {
        let made = &mut self.made;
        serve_command(
            alloc,
            &made.words,
            &mut made.files,
            &mut self.net,
            &mut self.clock,
            &mut made.sink,
        )
    }

    // Serves, and says whether it comes to what it must.
    fn ends(&mut self, alloc: Global, row: &Row) -> M<bool> {
        let ends = self.serve(alloc) == Status(row.status);
        let journal = self.made.written();
        let replays = match &row.replay {
            Some(replay) => offline::comes_true(alloc, replay, journal)?,
            None => true,
        };
        let taken = self.took(1, row.first) && self.took(2, row.second);
        Ok(ends && taken && replays && row.journal.is_met_by(journal))
    }

    fn took(&self, link: u32, wanted: Wanted) -> bool {
        match self.net.taken(link) {
            Some(bytes) => wanted.is_met_by(bytes),
            None => wanted.is_met_by(b""),
        }
    }
}

pub(super) fn net(alloc: Global, row: &Row) -> M<MemNet> {
    let fails = NetFails {
        listen: Counts::new(alloc),
        wait: calls(alloc, row.fails.wait)?,
        accept: Counts::new(alloc),
        connect: Counts::new(alloc),
    };
    let links = links(alloc, row.peers)?;
    if links.len() > 2 {
        return Err(Memory);
    }
    Ok(MemNet::new(alloc, links, fails))
}
