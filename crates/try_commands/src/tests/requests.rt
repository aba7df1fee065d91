// Requests that a rule answers, over a net, a clock, files and a journal in memory.

use super::Shown;
use super::made::SECOND_WAIT;
use super::offline::{Offline, REPLAYED};
use super::peers::{ASKS, ASKS_LATER};
use super::served::{ANSWERS, ENDS, Row, comes_true};
use super::texts::OK_ANSWER;
use super::wanted::Wanted;

const ONE_REQUEST: Row = Row {
    shows: "a request is answered, and the journal replayed",
    words: "serve web.toml --conns 1 --turns=50",
    peers: &[ASKS],
    first: Wanted::Whole(OK_ANSWER),
    replay: Some(Offline {
        words: "replay web.toml journal",
        written: Wanted::Has(
            b"> finish 1 closed\n",
            b"> client 1 485454502f312e3020323030204f4b0d0a5365727665723a2042696749500d0a436f6e6e656374696f6e3a20\
            4b6565702d416c6976650d0a436f6e74656e742d4c656e6774683a20320d0a0d0a6f6b\n> end ",
        ),
        ..REPLAYED
    }),
    ..ANSWERS
};

static ROWS: [Row; 4] = [
    ONE_REQUEST,
    Row {
        shows: "a client asks once another was served",
        words: "serve web.toml --conns 2 --turns 50",
        peers: &[ASKS_LATER, ASKS],
        second: Wanted::Whole(OK_ANSWER),
        replay: None,
        ..ONE_REQUEST
    },
    Row {
        shows: "one turn without a request",
        words: "serve web.toml --turns 1",
        ..ENDS
    },
    Row {
        shows: "the second wait fails",
        words: "serve web.toml",
        peers: &[ASKS],
        fails: SECOND_WAIT,
        status: 8,
        ..ENDS
    },
];

#[test]
fn requests_are_answered(rt: HostRuntime) -> Shown {
    for row in ROWS.iter() {
        if !comes_true(rt.alloc(), row).unwrap_or(false) {
            return Err(row.shows);
        }
    }
    Ok(())
}
