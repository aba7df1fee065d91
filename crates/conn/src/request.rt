// A client is told to go on with its request.

ghost use Rattle.std.specs.Prelude.{◌≡◌, ◌+◌, ◌≤◌, is_some, length, true, IfOk, OnErr};
ghost use Rattle.conn.specs.Acts.{TellsToGoOn};

use crate::connection::Conn;
use crate::ends::ROOM;
use crate::routing::asked;
use crate::setup::Setup;
use crate::turn::Act;
use core_events::Notes;
use http_answers::continue_text;
use px_bytes::{M, Memory};

impl Conn {
    /// Tells the client to go on with its request, where there is room.
    pub(crate) fn tell_to_go_on(
        &mut self,
        setup: &Setup<'_>,
        number: u32,
        notes: &mut Notes,
    ) -> M<Act>
        requires { 1 ≤ notes.old.spare }
        ensures ok { IfOk result (λ act. (is_some self.old.host.http ≡ true)
            × TellsToGoOn setup.now number self.old self.new
            notes.old.items notes.new.items act) }
        ensures err { OnErr result (notes.new ≡ notes.old) }
        ensures kept { OnErr result (self.new.ends.edges ≡ self.old.ends.edges) }
        ensures spare { notes.old.spare ≤ notes.new.spare + 1 }
        ensures grows { length notes.old.items ≤ length notes.new.items }
        ensures room { notes.new.spare + length notes.new.items
            ≡ notes.old.spare + length notes.old.items }
    {
        let Some(_http) = &self.host.http else {
            return Err(Memory);
        };
        let behind = asked(self.ends.link, &self.host);
        if self.ends.client.pending() >= ROOM {
            return Ok(self.rest_or_cut(setup, number, notes));
        }
        self.ends.client.queued.push(continue_text())?;
        self.stage = behind;
        Ok(Act::Goes)
    }
}
