// What commands made is done.

ghost use Rattle.std.specs.Prelude.{◌≡◌, ◌+◌, ◌≤◌, length, OnErr, OnOk};
ghost use Rattle.conn.specs.Steps.{DoesMade};

use crate::connection::Conn;
use core_events::{Note, Notes};
use irule_net::Made;
use px_bytes::{M, Side};

impl Conn {
    /// Does what one command made: a line is noted, and bytes go to a side.
    pub(crate) fn do_made(&mut self, number: u32, notes: &mut Notes) -> M<()>
        requires { 1 ≤ notes.old.spare }
        ensures ok { OnOk result
            (DoesMade number self.old self.new notes.old.items notes.new.items) }
        ensures err { OnErr result (notes.new ≡ notes.old) }
        ensures kept { OnErr result (self.new.ends.edges ≡ self.old.ends.edges) }
        ensures spare { notes.old.spare ≤ notes.new.spare + 1 }
        ensures grows { length notes.old.items ≤ length notes.new.items }
        ensures room { notes.new.spare + length notes.new.items
            ≡ notes.old.spare + length notes.old.items }
    {
        if let Some(answer) = &self.host.answer {
            if self.host.made.as_slice().is_empty() {
                self.ends.client.queued.push(answer.as_bytes())?;
            }
            return Ok(());
        }
        match self.host.made.as_slice() {
            [Made::Logged(text)] => {
                let text = text.copy()?;
                notes.push_reserved(Note::Log { conn: number, text });
            }
            [Made::Sent(Side::Client, bytes)] => self.ends.client.queued.push(bytes.as_bytes())?,
            [Made::Sent(Side::Server, bytes)] => self.ends.server.queued.push(bytes.as_bytes())?,
            _ => {}
        }
        Ok(())
    }
}
