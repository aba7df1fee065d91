// What is left of the body of an answered request is dropped.

ghost use Rattle.std.specs.Prelude.{◌≡◌, ◌+◌, ◌≤◌, is_some, length, true, IfOk, OnErr};
ghost use Rattle.conn.specs.Acts.{DropsBody, Refuses};
ghost use Rattle.conn.specs.Dropping.{DropsUnits};

use crate::connection::Conn;
use crate::setup::Setup;
use crate::stage::{Finish, Stage};
use crate::turn::Act;
use crate::unread::Unread;
use core_events::Notes;
use http_answers::refusal;
use http_frames::{BodyState, Unit, go_on};
use irule_http::client_closes;
use px_bytes::{HttpFault, M, Memory};

impl Unread {
    /// Drops all units of a body that came whole: where its reader stands then, and what stands there.
    fn drop_units(&mut self, from: BodyState, ended: bool) -> M<(BodyState, Unit)>
        ensures { IfOk result (λ r. DropsUnits from self.old ended r.0 r.1 self.new) }
    {
        let mut reader = from;
        for _unit in 0..=self.len() {
            let unit = self.unit(reader, ended);
            match unit {
                Unit::Piece(size) => {
                    self.drop_front(size);
                    reader = go_on(reader, unit);
                }
                Unit::ChunkLine { line, size } => {
                    self.drop_front(line);
                    reader = BodyState::Chunk(size);
                }
                Unit::Finished(_) | Unit::NotYet | Unit::Fault(_) => return Ok((reader, unit)),
            }
        }
        Err(Memory)
    }
}

impl Conn {
    /// Drops what came of the body of an answered request. Behind its end the next request is read.
    pub(crate) fn drop_body(
        &mut self,
        setup: &Setup<'_>,
        number: u32,
        from: BodyState,
        notes: &mut Notes,
    ) -> M<Act>
        requires { 1 ≤ notes.old.spare }
        ensures ok { IfOk result (λ act. (is_some self.old.host.http ≡ true)
            × DropsBody from setup.now number self.old self.new
            notes.old.items notes.new.items act) }
        ensures err { OnErr result (notes.new ≡ notes.old) }
        ensures kept { OnErr result (self.new.ends.edges ≡ self.old.ends.edges) }
        ensures spare { notes.old.spare ≤ notes.new.spare + 1 }
        ensures grows { length notes.old.items ≤ length notes.new.items }
        ensures room { notes.new.spare + length notes.new.items
            ≡ notes.old.spare + length notes.old.items }
    {
        let Some(http) = &self.host.http else {
            return Err(Memory);
        };
        let closes = client_closes(http);
        let ended = self.ends.client.ended;
        let (reader, unit) = self.ends.client.unread.drop_units(from, ended)?;
        self.stage = Stage::Dropping(reader);
        match unit {
            Unit::Finished(size) => {
                self.ends.client.unread.drop_front(size);
                self.stage = Stage::next(closes);
                Ok(Act::Goes)
            }
            Unit::Fault(fault) => self.refuse(setup, number, fault, notes),
            Unit::NotYet => Ok(self.rest_or_cut(setup, number, notes)),
            Unit::Piece(_) | Unit::ChunkLine { .. } => Err(Memory),
        }
    }

    /// Answers what can't be read, but for a stream that ended, and finishes.
    pub(crate) fn refuse(
        &mut self,
        setup: &Setup<'_>,
        number: u32,
        fault: HttpFault,
        notes: &mut Notes,
    ) -> M<Act>
        requires { 1 ≤ notes.old.spare }
        ensures ok { IfOk result (λ act. Refuses fault setup.now number self.old self.new
            notes.old.items notes.new.items act) }
        ensures err { OnErr result (notes.new ≡ notes.old) }
        ensures kept { OnErr result (self.new.ends.edges ≡ self.old.ends.edges) }
        ensures spare { notes.old.spare ≤ notes.new.spare + 1 }
        ensures grows { length notes.old.items ≤ length notes.new.items }
        ensures room { notes.new.spare + length notes.new.items
            ≡ notes.old.spare + length notes.old.items }
    {
        match fault {
            HttpFault::ShortBody | HttpFault::Switching => {
                self.finish(setup, number, Finish::Http(fault), notes);
            }
            _ => {
                self.ends.client.queued.push(refusal(fault))?;
                self.stage = Stage::Finishing(Finish::Http(fault));
            }
        }
        Ok(Act::Goes)
    }
}
