// The sums of a report, line by line.

ghost use Rattle.std.specs.Prelude.{◌∷◌, [], List, OnOk, ◌≡◌};
ghost use Rattle.access_report.specs.Sums.{end_counts, of_bytes};
ghost use Rattle.access_report.specs.Tallies.{Accepted, Counted, Tallies};
ghost use Rattle.journal_value.specs.declared.journal.JournalLine.{JournalLine};

use crate::ServerCounts;
use crate::rows::ServerRows;
use core_events::{Cause, Event, Note};
use journal_value::JournalLine;
use px_bytes::{M, Text};
use std::alloc::Global;
use std::collections::HashMap;

const ONE_CONN: ServerCounts = ServerCounts {
    conns: 1,
    bytes: 0,
    calls: 0,
    early: 0,
};

const ONE_CALL: ServerCounts = ServerCounts {
    conns: 0,
    bytes: 0,
    calls: 1,
    early: 0,
};

const ONE_EARLY: ServerCounts = ServerCounts {
    conns: 0,
    bytes: 0,
    calls: 0,
    early: 1,
};

/// What the lines so far count, and the virtual server of each connection.
#[derive(Drop)]
pub struct Tally {
    pub owners: HashMap<u32, Text>,
    pub rows: ServerRows,
    pub total: ServerCounts,
}

impl Tally {
    pub fn new(alloc: Global) -> Tally
        ensures { Tallies [] result }
    {
        Tally {
            owners: HashMap::new(alloc),
            rows: ServerRows::new(alloc),
            total: ServerCounts::NONE,
        }
    }

    /// ServerCounts one more line.
    pub fn add(&mut self, alloc: Global, line: &JournalLine) -> M<()>
        ensures { OnOk result ((past : List JournalLine) → Tallies past self.old
            → Tallies (line.now ∷ past) self.new) }
    {
        match line {
            JournalLine::Event(event) => self.event(alloc, event),
            JournalLine::Note(note) => self.note(alloc, note),
        }
    }

    fn event(&mut self, alloc: Global, event: &Event) -> M<()>
        ensures { OnOk result ((past : List JournalLine) → Tallies past self.old
            → Tallies (JournalLine.Event event.now ∷ past) self.new) }
    {
        match event {
            Event::Accept { conn, vs, .. } => self.accept(alloc, *conn, vs),
            Event::ClientTook { conn, n } => self.count(alloc, *conn, of_bytes(*n)),
            _ => Ok(()),
        }
    }

    fn note(&mut self, alloc: Global, note: &Note) -> M<()>
        ensures { OnOk result ((past : List JournalLine) → Tallies past self.old
            → Tallies (JournalLine.Note note.now ∷ past) self.new) }
    {
        match note {
            Note::History { conn, .. } => self.count(alloc, *conn, ONE_CALL),
            Note::Finish { conn, cause } => self.count(alloc, *conn, end_counts(*cause)),
            _ => Ok(()),
        }
    }

    // A connection was accepted at a virtual server.
    fn accept(&mut self, alloc: Global, conn: u32, vs: &Text) -> M<()>
        ensures { OnOk result (Accepted self.old self.new conn vs.now) }
    {
        self.rows.raise(alloc, vs.as_bytes(), ONE_CONN)?;
        self.owners.insert(conn, vs.copy()?)?;
        self.total.raise(ONE_CONN)
    }

    // Something was counted of a connection.
    fn count(&mut self, alloc: Global, conn: u32, more: ServerCounts) -> M<()>
        ensures { OnOk result (Counted self.old self.new conn more) }
    {
        if let Some(vs) = self.owners.get(&conn) {
            self.rows.raise(alloc, vs.as_bytes(), more)?;
        }
        self.total.raise(more)
    }
}

fn of_bytes(n: usize) -> ServerCounts
    ensures { result ≡ of_bytes n }
{
    ServerCounts {
        conns: 0,
        bytes: n as u128,
        calls: 0,
        early: 0,
    }
}

fn end_counts(cause: Cause) -> ServerCounts
    ensures { result ≡ end_counts cause }
{
    match cause {
        Cause::Closed => ServerCounts::NONE,
        _ => ONE_EARLY,
    }
}
