// What a test does.

ghost use Rattle.std.specs.Prelude.{◌≡◌, IfOk, IsFalse, IsTrue};
ghost use Rattle.core_events.specs.Face.{end_event, from_event, reset_event};
ghost use Rattle.test_run.specs.Deeds.{Comes, ComesNot, DoesDeed, DoesPeer, OnConn, RefusesDeed};
ghost use Rattle.test_run.specs.Deeds.{RefusesOf, RefusesPeer, Ticks, TicksNot};
ghost use Rattle.test_run.specs.Stand.{Gives, Refuses, stand};

use crate::known::{Amount, Meets};
use crate::run::TestRun;
use core_events::{Event, EventCore};
use px_bytes::{Addr, M, Side, Text};
use test_past::{ClientConn, conn_of};
use test_text::{Deed, PeerDeed};

pub(crate) fn from_event(side: Side, conn: u32, bytes: Text) -> Event
    ensures { result ≡ from_event side conn bytes }
{
    match side {
        Side::Client => Event::FromClient { conn, bytes },
        Side::Server => Event::FromServer { conn, bytes },
    }
}

fn end_event(side: Side, conn: u32) -> Event
    ensures { result ≡ end_event side conn }
{
    match side {
        Side::Client => Event::ClientEnd { conn },
        Side::Server => Event::ServerEnd { conn },
    }
}

fn reset_event(side: Side, conn: u32) -> Event
    ensures { result ≡ reset_event side conn }
{
    match side {
        Side::Client => Event::ClientReset { conn },
        Side::Server => Event::ServerReset { conn },
    }
}

impl<C: EventCore + Drop> TestRun<C> {
    // A client comes to a virtual server.
    fn comes(&mut self, client: usize, from: Addr, to: &Text) -> M<bool>
        ensures comes { IfOk result (λ taken. IsTrue taken
            → Comes C.face client from to.now (stand self.old) (stand self.new)) }
        ensures refused { IfOk result (λ taken. IsFalse taken
            → ComesNot C.face from to.now (stand self.old) (stand self.new)) }
    {
        let Some(conn) = self.core.next() else {
            return Ok(false);
        };
        let vs = to.copy()?;
        if !self.give(Event::Accept { conn, vs, from })? {
            return Ok(false);
        }
        self.known.came.push(ClientConn { client, conn })?;
        Ok(true)
    }

    fn sends(&mut self, side: Side, client: usize, bytes: &Text) -> M<bool>
        ensures sends { IfOk result (λ taken. IsTrue taken → OnConn C.face client
            (λ conn. from_event side conn bytes.now) (stand self.old) (stand self.new)) }
        ensures refused { IfOk result (λ taken. IsFalse taken → RefusesOf C.face client
            (λ conn. from_event side conn bytes.now) (stand self.old) (stand self.new)) }
    {
        let Some(conn) = conn_of(client, self.known.came.as_slice()) else {
            return Ok(false);
        };
        let bytes = bytes.copy()?;
        self.give(from_event(side, conn, bytes))
    }

    fn ends(&mut self, side: Side, client: usize) -> M<bool>
        ensures ends { IfOk result (λ taken. IsTrue taken → OnConn C.face client
            (end_event side) (stand self.old) (stand self.new)) }
        ensures refused { IfOk result (λ taken. IsFalse taken → RefusesOf C.face client
            (end_event side) (stand self.old) (stand self.new)) }
    {
        match conn_of(client, self.known.came.as_slice()) {
            Some(conn) => self.give(end_event(side, conn)),
            None => Ok(false),
        }
    }

    fn resets(&mut self, side: Side, client: usize) -> M<bool>
        ensures resets { IfOk result (λ taken. IsTrue taken → OnConn C.face client
            (reset_event side) (stand self.old) (stand self.new)) }
        ensures refused { IfOk result (λ taken. IsFalse taken → RefusesOf C.face client
            (reset_event side) (stand self.old) (stand self.new)) }
    {
        match conn_of(client, self.known.came.as_slice()) {
            Some(conn) => self.give(reset_event(side, conn)),
            None => Ok(false),
        }
    }

    // What a client does, or its server.
    fn peer(&mut self, side: Side, client: usize, deed: &PeerDeed) -> M<bool>
        ensures does { IfOk result (λ taken. IsTrue taken
            → DoesPeer C.face side client deed.now (stand self.old) (stand self.new)) }
        ensures refused { IfOk result (λ taken. IsFalse taken
            → RefusesPeer C.face side client deed.now (stand self.old) (stand self.new)) }
    {
        match deed {
            PeerDeed::Sends(bytes) => self.sends(side, client, bytes),
            PeerDeed::Ends => self.ends(side, client),
            PeerDeed::Resets => self.resets(side, client),
            PeerDeed::Takes(most) => {
                let most = *most;
                self.known.amounts.push(Amount { side, client, most })?;
                Ok(true)
            }
        }
    }

    fn marks(&mut self, pool: &Text, member: Addr, up: bool) -> M<bool>
        ensures marks { IfOk result (λ taken. IsTrue taken
            → Gives C.face (Event.Mark pool.now member up) (stand self.old) (stand self.new)) }
        ensures refused { IfOk result (λ taken. IsFalse taken → Refuses C.face
            (Event.Mark pool.now member up) (stand self.old) (stand self.new)) }
    {
        let pool = pool.copy()?;
        self.give(Event::Mark { pool, member, up })
    }

    fn waits(&mut self, milliseconds: u64) -> M<bool>
        ensures waits { IfOk result (λ taken. IsTrue taken
            → Ticks C.face milliseconds (stand self.old) (stand self.new)) }
        ensures refused { IfOk result (λ taken. IsFalse taken
            → TicksNot C.face milliseconds (stand self.old) (stand self.new)) }
    {
        match self.core.moment().checked_add(milliseconds) {
            Some(moment) => self.give(Event::Tick { moment }),
            None => Ok(false),
        }
    }

    /// Does what a line of a test says. Says whether it could.
    pub(crate) fn do_deed(&mut self, deed: &Deed) -> M<bool>
        ensures does { IfOk result (λ taken. IsTrue taken
            → DoesDeed C.face deed.now (stand self.old) (stand self.new)) }
        ensures refused { IfOk result (λ taken. IsFalse taken
            → RefusesDeed C.face deed.now (stand self.old) (stand self.new)) }
    {
        match deed {
            Deed::Comes { client, from, to } => self.comes(*client, *from, &to.name),
            Deed::Does { side, client, deed } => self.peer(*side, *client, deed),
            Deed::Meets { server, meeting } => {
                let (addr, meeting) = (server.addr, *meeting);
                self.known.meets.push(Meets { addr, meeting })?;
                Ok(true)
            }
            Deed::Marks { pool, member, up } => self.marks(&pool.name, member.addr, *up),
            Deed::Waits(milliseconds) => self.waits(*milliseconds),
        }
    }
}
