// The head of a message goes on.

ghost use Rattle.std.specs.Prelude.{◌≡◌, ◌+◌, ◌≤◌, is_some, length, true, IfOk, OnErr};
ghost use Rattle.conn.specs.Messages.{SendsHead};

use crate::connection::Conn;
use crate::payload::push_payload;
use crate::routing::behind_head;
use crate::setup::Setup;
use crate::turn::Act;
use core_events::Notes;
use irule_http::sent_head;
use px_bytes::{M, Memory, Side};
use std::alloc::Global;

impl Conn {
    /// Sends the head of a side's message to the other side, with what was gathered of its body, where there is
    /// room.
    pub(crate) fn send_head(
        &mut self,
        alloc: Global,
        setup: &Setup<'_>,
        number: u32,
        side: Side,
        notes: &mut Notes,
    ) -> M<Act>
        requires { 1 ≤ notes.old.spare }
        ensures ok { IfOk result (λ act. (is_some self.old.host.http ≡ true)
            × SendsHead side setup.now number self.old self.new
            notes.old.items notes.new.items act) }
        ensures err { OnErr result (notes.new ≡ notes.old) }
        ensures kept { OnErr result (self.new.ends.edges ≡ self.old.ends.edges) }
        ensures spare { notes.old.spare ≤ notes.new.spare + 1 }
        ensures grows { length notes.old.items ≤ length notes.new.items }
        ensures room { notes.new.spare + length notes.new.items
            ≡ notes.old.spare + length notes.old.items }
    {
        let Some(http) = &self.host.http else {
            return Err(Memory);
        };
        if !self.ends.has_room(side) {
            return Ok(self.rest_or_cut(setup, number, notes));
        }
        let mut head = sent_head(alloc, side, http)?;
        push_payload(alloc, &mut head, http)?;
        self.ends.send(side, head.as_bytes())?;
        self.stage = behind_head(side, &self.host);
        Ok(Act::Goes)
    }
}
