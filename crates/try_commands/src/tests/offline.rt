// Commands that wait for nobody: files that can't be read, output that can't be written.

use super::Shown;
use super::made::{FIRST_READ, FIRST_WRITE, Fails, Made, NOTHING, SECOND_READ, SECOND_WRITE};
use super::texts::{REPORT, UNREAD_RULE};
use super::wanted::{EMPTY, Wanted};
use proxy::{Status, offline};
use px_bytes::M;
use std::alloc::Global;

/// A command, which calls fail, and what it comes to.
#[derive(Clone, Copy)]
pub(super) struct Offline {
    pub(super) shows: &'static str,
    pub(super) words: &'static str,
    pub(super) fails: Fails,
    pub(super) status: u8,
    pub(super) written: Wanted,
}

pub(super) const REPLAYED: Offline = Offline {
    shows: "a schedule is replayed",
    words: "replay hi.toml hi.txt",
    fails: NOTHING,
    status: 0,
    written: Wanted::Whole(REPORT),
};

const CHECKED: Offline = Offline {
    shows: "a configuration loads",
    words: "check hi.toml",
    written: Wanted::Whole(b"ok\n"),
    ..REPLAYED
};

static ROWS: [Offline; 13] = [
    REPLAYED,
    Offline {
        shows: "the configuration can't be read",
        fails: FIRST_READ,
        status: 5,
        written: EMPTY,
        ..REPLAYED
    },
    Offline {
        shows: "the schedule can't be read",
        fails: SECOND_READ,
        status: 5,
        written: EMPTY,
        ..REPLAYED
    },
    Offline {
        shows: "nothing of the report can be written",
        fails: FIRST_WRITE,
        status: 6,
        written: EMPTY,
        ..REPLAYED
    },
    Offline {
        shows: "a part of the report can't be written",
        fails: SECOND_WRITE,
        status: 6,
        written: Wanted::PartOf(REPORT),
        ..REPLAYED
    },
    CHECKED,
    Offline {
        shows: "a schedule is no configuration",
        words: "check hi.txt",
        status: 3,
        written: Wanted::Whole(b"config fault 2 at hi.txt\n"),
        ..CHECKED
    },
    Offline {
        shows: "the answer of a check can't be written",
        fails: FIRST_WRITE,
        status: 6,
        written: EMPTY,
        ..CHECKED
    },
    Offline {
        shows: "the file of a rule is read",
        words: "check files.toml",
        ..CHECKED
    },
    Offline {
        shows: "the file of a rule can't be read",
        words: "check files.toml",
        fails: SECOND_READ,
        status: 5,
        written: EMPTY,
        ..CHECKED
    },
    Offline {
        shows: "the file of a rule can't be read, which is explained",
        words: "explain files.toml",
        fails: SECOND_READ,
        status: 5,
        written: Wanted::Whole(UNREAD_RULE),
        ..CHECKED
    },
    Offline {
        shows: "an explanation can't be written",
        words: "explain hi.txt",
        fails: FIRST_WRITE,
        status: 6,
        written: EMPTY,
        ..CHECKED
    },
    Offline {
        shows: "members kept by a cookie can't be run today",
        words: "replay files.toml hi.txt",
        status: 3,
        written: Wanted::Whole(b"config fault 9 at config\n"),
        ..REPLAYED
    },
];

#[test]
fn offline_commands_come_to_what_they_must(rt: HostRuntime) -> Shown {
    for row in ROWS.iter() {
        if !comes_true(rt.alloc(), row, b"").unwrap_or(false) {
            return Err(row.shows);
        }
    }
    Ok(())
}

/// Whether a row's command, where the file named `journal` holds this, comes to what it must.
pub(super) fn comes_true(alloc: Global, row: &Offline, journal: &[u8]) -> M<bool> {
    let mut made = Made::new(alloc, row.words, journal, row.fails)?;
    Ok(ends(alloc, row, &mut made))
}

fn ends(alloc: Global, row: &Offline, made: &mut Made) -> bool {
    let status = offline(alloc, &made.words, &mut made.files, &mut made.sink);
    status == Status(row.status) && row.written.is_met_by(made.written())
}
