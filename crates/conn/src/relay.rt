// Bytes are passed on both ways, and collected.

ghost use Rattle.std.specs.Prelude.{◌≡◌, ◌+◌, ◌≤◌, ◌++◌, length, take, drop, IfOk, OnErr, OnOk};
ghost use Rattle.conn.specs.Acts.{Relays};
ghost use Rattle.conn_trace.specs.Gates.{other};
ghost use Rattle.conn_trace.specs.Relay.{is_done};
ghost use Rattle.conn.specs.Relaying.{incoming_of, moved, passes_now, plan_of, relay_plan};
ghost use Rattle.conn.specs.Relaying.{side_plan, to_pass};

use crate::connection::Conn;
use crate::ends::{ConnectionEnd, Ends, ROOM};
use crate::setup::Setup;
use crate::stage::{Finish, Stage};
use crate::turn::Act;
use core_events::{Note, Notes};
use irule_net::Asks;
use px_bytes::{M, Side};

/// What a relay does next.
#[derive(Clone, Copy, PartialEq, Eq)]
pub(crate) enum Relay {
    /// No more of either end is to be passed on.
    Done,
    /// So many bytes of a side are passed on.
    Pass(Side, usize),
    /// So many bytes of a side meet its collect.
    Fire(Side, usize),
    /// None can be.
    Rest,
}

impl Conn {
    /// Passes bytes on, collects them, finishes where both ends have ended, or rests. The bytes of
    /// the first side go first.
    pub(crate) fn relay(
        &mut self,
        setup: &Setup<'_>,
        number: u32,
        first: Side,
        notes: &mut Notes,
    ) -> M<Act>
        requires { 1 ≤ notes.old.spare }
        ensures ok { IfOk result (λ act. Relays setup.now number first self.old self.new
            notes.old.items notes.new.items act) }
        ensures err { OnErr result (notes.new ≡ notes.old) }
        ensures kept { OnErr result (self.new.ends.edges ≡ self.old.ends.edges) }
        ensures spare { notes.old.spare ≤ notes.new.spare + 1 }
        ensures grows { length notes.old.items ≤ length notes.new.items }
        ensures room { notes.new.spare + length notes.new.items
            ≡ notes.old.spare + length notes.old.items }
    {
        match self.plan(first) {
            Relay::Done => {
                self.finish(setup, number, Finish::Closed, notes);
                Ok(Act::Goes)
            }
            Relay::Pass(side, n) => {
                self.ends.pass(side, n)?;
                notes.push_reserved(Note::Pass {
                    conn: number,
                    side,
                    n,
                });
                self.stage = Stage::Relaying(other(side));
                Ok(Act::Goes)
            }
            Relay::Fire(side, n) => {
                self.fire(setup, number, side, n, notes)?;
                Ok(Act::Goes)
            }
            Relay::Rest => {
                self.stage = Stage::Relaying(Side::Client);
                Ok(self.rest_or_cut(setup, number, notes))
            }
        }
    }

    fn plan(&self, first: Side) -> Relay
        ensures { result ≡ relay_plan first self.now.host.net self.now.ends }
    {
        if is_done(self.host.net.client.asks, &self.ends.client) {
            if is_done(self.host.net.server.asks, &self.ends.server) {
                return Relay::Done;
            }
        }
        let later = self.plan_of(other(first), Relay::Rest);
        self.plan_of(first, later)
    }

    fn plan_of(&self, side: Side, later: Relay) -> Relay
        ensures { result ≡ plan_of side self.now.host.net self.now.ends later }
    {
        let (client, server) = (&self.ends.client, &self.ends.server);
        match side {
            Side::Client => side_plan(side, self.host.net.client.asks, client, server, later),
            Side::Server => side_plan(side, self.host.net.server.asks, server, client, later),
        }
    }
}

fn other(side: Side) -> Side
    ensures { result ≡ other side }
{
    match side {
        Side::Client => Side::Server,
        Side::Server => Side::Client,
    }
}

// No more of a side is passed on or collected.
fn is_done(asks: Asks, from: &ConnectionEnd) -> bool
    ensures { result ≡ is_done (incoming_of asks from.now) }
{
    match asks {
        Asks::NotAsked => from.is_done(),
        Asks::Stated(n) => from.ended && from.unread.len() < n,
    }
}

// What is done with the bytes of a side, or later.
fn side_plan(
    side: Side,
    asks: Asks,
    from: &ConnectionEnd,
    to: &ConnectionEnd,
    later: Relay,
) -> Relay
    ensures { result ≡ side_plan side asks from.now to.now later }
{
    match asks {
        Asks::NotAsked => match passable(from, to) {
            0 => later,
            n => Relay::Pass(side, n),
        },
        Asks::Stated(n) if n <= from.unread.len() => Relay::Fire(side, n),
        Asks::Stated(_) => later,
    }
}

impl Ends {
    /// The first `n` bytes of a side go to the other.
    pub(crate) fn pass(&mut self, side: Side, n: usize) -> M<()>
        requires { passes_now side n self.old }
        ensures moved { OnOk result (self.new ≡ moved side n self.old) }
        ensures edges { self.new.edges ≡ self.old.edges }
    {
        match side {
            Side::Client => pass(&mut self.client, &mut self.server, n),
            Side::Server => pass(&mut self.server, &mut self.client, n),
        }
    }
}

// How many bytes of one end may be passed on to the other.
fn passable(from: &ConnectionEnd, to: &ConnectionEnd) -> usize
    ensures { result ≡ to_pass from.now to.now }
{
    from.unread.len().min(to.room())
}

// All that came goes to an end that waits for nothing without a copy.
fn pass(from: &mut ConnectionEnd, to: &mut ConnectionEnd, n: usize) -> M<()>
    requires { n ≤ length from.old.unread }
    ensures from { OnOk result (from.new ≡ record from.old { unread = drop n from.old.unread }) }
    ensures to { OnOk result (to.new
        ≡ record to.old { queued = to.old.queued ++ take n from.old.unread }) }
{
    if n == from.unread.len() && n <= ROOM && to.queued.is_empty() {
        from.unread.give(&mut to.queued);
        return Ok(());
    }
    to.queued.push(&from.unread.front()[..n])?;
    from.unread.drop_front(n);
    Ok(())
}
