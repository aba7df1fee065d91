// The connection to the server.

ghost use Rattle.std.specs.Prelude.{◌≡◌, ◌+◌, ◌≤◌, length, IfOk, OnErr};
ghost use Rattle.conn.specs.Acts.{Answers, ConnectsNext};

use crate::connection::Conn;
use crate::ends::Link;
use crate::events::At;
use crate::setup::Setup;
use crate::stage::Stage;
use crate::turn::Act;
use core_events::{Note, Notes};
use px_bytes::{Addr, M};
use std::alloc::Global;

impl Conn {
    /// Asks the server for a connection, once the one before took all.
    pub(crate) fn connect(
        &mut self,
        alloc: Global,
        setup: &Setup<'_>,
        number: u32,
        to: Addr,
        notes: &mut Notes,
    ) -> M<Act>
        requires { 1 ≤ notes.old.spare }
        ensures ok { IfOk result (λ act. ConnectsNext setup.now number to self.old self.new
            notes.old.items notes.new.items act) }
        ensures err { OnErr result (notes.new ≡ notes.old) }
        ensures kept { OnErr result (self.new.ends.edges ≡ self.old.ends.edges) }
        ensures spare { notes.old.spare ≤ notes.new.spare + 1 }
        ensures grows { length notes.old.items ≤ length notes.new.items }
        ensures room { notes.new.spare + length notes.new.items
            ≡ notes.old.spare + length notes.old.items }
    {
        if self.ends.server.pending() > 0 {
            return Ok(self.rest_or_cut(setup, number, notes));
        }
        self.ends.ask(alloc)?;
        notes.push_reserved(Note::Connect { conn: number, to });
        self.stage = Stage::Answering(to);
        Ok(Act::Goes)
    }

    /// Takes the answer whether it is made, if that came.
    pub(crate) fn answer(&mut self, setup: &Setup<'_>, number: u32, notes: &mut Notes) -> M<Act>
        requires { 1 ≤ notes.old.spare }
        ensures ok { IfOk result (λ act. Answers setup.now number self.old self.new
            notes.old.items notes.new.items act) }
        ensures err { OnErr result (notes.new ≡ notes.old) }
        ensures kept { OnErr result (self.new.ends.edges ≡ self.old.ends.edges) }
        ensures spare { notes.old.spare ≤ notes.new.spare + 1 }
        ensures grows { length notes.old.items ≤ length notes.new.items }
        ensures room { notes.new.spare + length notes.new.items
            ≡ notes.old.spare + length notes.old.items }
    {
        match self.ends.link {
            Link::Made => {
                self.host.serve()?;
                self.ends.link = Link::Up;
                self.enter(setup, At::Connected);
                Ok(Act::Goes)
            }
            Link::Refused => {
                self.ends.link = Link::Absent;
                self.enter(setup, At::Failed);
                Ok(Act::Goes)
            }
            _ => Ok(self.rest_or_cut(setup, number, notes)),
        }
    }
}
