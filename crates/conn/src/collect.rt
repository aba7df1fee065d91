// Bytes are collected, and released.

ghost use Rattle.std.specs.Prelude.{◌≡◌, ◌+◌, ◌≤◌, length, IfOk, OnErr, OnOk};
ghost use Rattle.conn_trace.specs.Relay.{meets};
ghost use Rattle.conn.specs.Acts.{Collects, PassesReleased};
ghost use Rattle.conn.specs.Ends.{end_of};
ghost use Rattle.conn.specs.Relaying.{Fires, passes_now};

use crate::connection::Conn;
use crate::ends::{ConnectionEnd, ROOM};
use crate::events::At;
use crate::setup::Setup;
use crate::stage::Stage;
use crate::turn::Act;
use core_events::{Note, Notes};
use irule_net::Asks;
use px_bytes::{M, Side};
use std::alloc::Global;

impl Conn {
    /// Before there is a server: collects bytes of the client where its collect is met, or rests.
    pub(crate) fn collect(&mut self, setup: &Setup<'_>, number: u32, notes: &mut Notes) -> M<Act>
        requires { 1 ≤ notes.old.spare }
        ensures ok { IfOk result (λ act. Collects setup.now number self.old self.new
            notes.old.items notes.new.items act) }
        ensures err { OnErr result (notes.new ≡ notes.old) }
        ensures kept { OnErr result (self.new.ends.edges ≡ self.old.ends.edges) }
        ensures spare { notes.old.spare ≤ notes.new.spare + 1 }
        ensures grows { length notes.old.items ≤ length notes.new.items }
        ensures room { notes.new.spare + length notes.new.items
            ≡ notes.old.spare + length notes.old.items }
    {
        match meets(self.host.net.client.asks, &self.ends.client) {
            Some(n) => {
                self.fire(setup, number, Side::Client, n, notes)?;
                Ok(Act::Goes)
            }
            None => Ok(self.rest_or_cut(setup, number, notes)),
        }
    }

    /// The collect of a side is met: it holds the first `n` bytes, and their event is entered.
    pub(crate) fn fire(
        &mut self,
        setup: &Setup<'_>,
        number: u32,
        side: Side,
        n: usize,
        notes: &mut Notes,
    ) -> M<()>
        requires room { 1 ≤ notes.old.spare }
        requires there { passes_now side n self.old.ends }
        ensures ok { OnOk result (Fires setup.now number side n self.old self.new
            notes.old.items notes.new.items) }
        ensures err { OnErr result (notes.new ≡ notes.old) }
        ensures kept { OnErr result (self.new.ends.edges ≡ self.old.ends.edges) }
        ensures spare { notes.old.spare ≤ notes.new.spare + 1 }
        ensures grows { length notes.old.items ≤ length notes.new.items }
        ensures room { notes.new.spare + length notes.new.items
            ≡ notes.old.spare + length notes.old.items }
    {
        let bytes = self.ends.end_of(side).unread.front();
        self.host.fire(side, &bytes[..n])?;
        self.ends.read(side, n);
        notes.push_reserved(Note::Fired { conn: number, side });
        self.enter(setup, At::data(side));
        Ok(())
    }

    /// The client's bytes that were released before there was a server go to it, if there is room.
    pub(crate) fn release(
        &mut self,
        alloc: Global,
        setup: &Setup<'_>,
        number: u32,
        notes: &mut Notes,
    ) -> M<Act>
        requires { 1 ≤ notes.old.spare }
        ensures ok { IfOk result (λ act. PassesReleased setup.now number self.old self.new
            notes.old.items notes.new.items act) }
        ensures err { OnErr result (notes.new ≡ notes.old) }
        ensures kept { OnErr result (self.new.ends.edges ≡ self.old.ends.edges) }
        ensures spare { notes.old.spare ≤ notes.new.spare + 1 }
        ensures grows { length notes.old.items ≤ length notes.new.items }
        ensures room { notes.new.spare + length notes.new.items
            ≡ notes.old.spare + length notes.old.items }
    {
        if self.ends.server.pending() >= ROOM {
            return Ok(self.rest_or_cut(setup, number, notes));
        }
        let loose = self.host.net.loose.as_bytes();
        self.ends.server.queued.push(loose)?;
        self.host.released(alloc);
        self.stage = Stage::Relaying(Side::Client);
        Ok(Act::Goes)
    }
}

/// The bytes of a stated collect, where it is met.
fn meets(asks: Asks, from: &ConnectionEnd) -> Option<usize>
    ensures { result ≡ meets asks from.now.unread }
{
    match asks {
        Asks::Stated(n) if n <= from.unread.len() => Some(n),
        Asks::Stated(_) | Asks::NotAsked => None,
    }
}
