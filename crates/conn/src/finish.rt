// A connection finishes.

ghost use Rattle.std.specs.Prelude.{◌≡◌, ◌+◌, ◌≤◌, ◌∷◌, ◌++◌, [], length};
ghost use Rattle.core_events.specs.declared.note.Note.TheVariants as noted;
ghost use Rattle.conn.specs.Changes.{Closes, ClosesBodies, ClosesClient, ClosesServer, Leaves};
ghost use Rattle.conn.specs.Stages.{cause_for};

use crate::connection::Conn;
use crate::events::At;
use crate::setup::Setup;
use crate::stage::{Finish, Stage};
use core_events::{Note, Notes};

impl Conn {
    /// Finishes for this reason: the closing events come.
    pub(crate) fn finish(
        &mut self,
        setup: &Setup<'_>,
        number: u32,
        finish: Finish,
        notes: &mut Notes,
    )
        requires { 1 ≤ notes.old.spare }
        ensures closes { Closes setup.now self.old self.new }
        ensures noted { notes.new.items
            ≡ notes.old.items ++ noted.Finish number (cause_for finish) ∷ [] }
        ensures spare { notes.old.spare ≤ notes.new.spare + 1 }
        ensures grows { length notes.old.items ≤ length notes.new.items }
        ensures room { notes.new.spare + length notes.new.items
            ≡ notes.old.spare + length notes.old.items }
    {
        notes.push_reserved(Note::Finish {
            conn: number,
            cause: finish.cause(),
        });
        self.close(setup);
    }

    // SERVER_CLOSED comes where a server was asked for or is there.
    fn close(&mut self, setup: &Setup<'_>)
        ensures { Closes setup.now self.old self.new }
    {
        if self.ends.link.is_sought() {
            self.close_server(setup);
        } else {
            self.close_client(setup);
        }
    }

    fn close_server(&mut self, setup: &Setup<'_>)
        ensures { ClosesServer setup.now self.old self.new }
    {
        self.host.begin(At::ServerClosed, self.ends.link.is_up());
        self.next_body(setup, At::ServerClosed, 0);
    }

    /// CLIENT_CLOSED comes.
    pub(crate) fn close_client(&mut self, setup: &Setup<'_>)
        ensures { ClosesClient setup.now self.old self.new }
    {
        self.host.begin(At::Closed, self.ends.link.is_up());
        self.run_last(setup);
    }

    // The bodies of CLIENT_CLOSED run, and then what is queued is to be taken.
    fn run_last(&mut self, setup: &Setup<'_>)
        ensures { ClosesBodies setup.now self.old self.new }
    {
        if 0 < setup.places(At::Closed).len() {
            self.start_body(setup, At::Closed, 0);
        } else {
            self.stage = Stage::Draining;
        }
    }

    /// All bodies of an event have ended.
    pub(crate) fn leave(&mut self, setup: &Setup<'_>, at: At)
        ensures { Leaves setup.now at self.old self.new }
    {
        match at {
            At::ServerClosed => self.close_client(setup),
            _ => self.stage = Stage::after(at, self.ends.link, &self.host),
        }
    }
}
