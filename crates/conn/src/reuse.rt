// The server connection is used again, or given up.

ghost use Rattle.std.specs.Prelude.{◌≡◌, ◌+◌, ◌≤◌, length};
ghost use Rattle.conn.specs.Messages.{GivesUp, Retires, Reuses};

use crate::connection::Conn;
use crate::ends::{Behind, Link};
use crate::events::At;
use crate::routing::behind_retired;
use crate::setup::Setup;
use crate::stage::Stage;
use core_events::{EdgeState, Note, Notes};
use px_bytes::Side;

impl Conn {
    /// The server connection is used again, unless it ended or was reset.
    pub(crate) fn reuse(&mut self, number: u32, notes: &mut Notes)
        requires { 1 ≤ notes.old.spare }
        ensures reuses { Reuses number self.old self.new notes.old.items notes.new.items }
        ensures spare { notes.old.spare ≤ notes.new.spare + 1 }
        ensures grows { length notes.old.items ≤ length notes.new.items }
        ensures room { notes.new.spare + length notes.new.items
            ≡ notes.old.spare + length notes.old.items }
    {
        let server = &self.ends.server;
        let kept = !(server.ended || server.reset);
        notes.push_reserved(Note::Reuse { conn: number, kept });
        self.stage = if kept {
            Stage::Heading(Side::Client)
        } else {
            Stage::GivingUp(Behind::BeforeSelect)
        };
    }

    /// The server connection is given up: its closing event comes.
    pub(crate) fn give_up(&mut self, setup: &Setup<'_>, behind: Behind)
        ensures { GivesUp setup.now behind self.old self.new }
    {
        self.ends.link = Link::Leaving(behind);
        self.host.begin(At::Leaving, false);
        self.next_body(setup, At::Leaving, 0);
    }

    /// From here on nothing more is sent to it, and it is closed where it took all.
    pub(crate) fn retire(&mut self, number: u32, behind: Behind, notes: &mut Notes)
        requires { 1 ≤ notes.old.spare }
        ensures retires { Retires number behind self.old self.new notes.old.items notes.new.items }
        ensures spare { notes.old.spare ≤ notes.new.spare + 1 }
        ensures grows { length notes.old.items ≤ length notes.new.items }
        ensures room { notes.new.spare + length notes.new.items
            ≡ notes.old.spare + length notes.old.items }
    {
        self.ends.link = Link::GivenUp;
        self.stage = behind_retired(behind, &self.host.http);
        if self.ends.server.pending() == 0 {
            notes.push_reserved(Note::CloseServer { conn: number });
            self.ends.edges.server.state = EdgeState::Closed;
        }
    }
}
