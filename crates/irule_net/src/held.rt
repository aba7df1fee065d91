// The bytes that are held of a side.

ghost use Rattle.std.specs.Prelude.{◌≡◌, IfOk};
ghost use Rattle.irule_net.specs.State.{asked_bytes, collected, gone, holds, no_collect};
ghost use Rattle.irule_net.specs.State.{with_collected};
ghost use Rattle.irule_net.specs.Steps.{replaced};

use crate::state::no_collect;
use crate::{Asks, NetState};
use px_bytes::{M, Side, Text};
use std::alloc::Global;
use std::mem;

/// The most bytes that are held of a side.
const HOLD_LIMIT: usize = 1_048_576;

impl NetState {
    /// The bytes that are held of a side.
    pub fn held(&self, side: Side) -> &Text
        ensures { result.now ≡ (collected side self.now).held }
    {
        match side {
            Side::Client => &self.client.held,
            Side::Server => &self.server.held,
        }
    }

    /// What the collect of a side asks for.
    pub fn asks(&self, side: Side) -> Asks
        ensures { result ≡ (collected side self.now).asks }
    {
        match side {
            Side::Client => self.client.asks,
            Side::Server => self.server.asks,
        }
    }

    pub fn set_asks(&mut self, side: Side, asks: Asks)
        ensures { self.new
            ≡ with_collected side (record (collected side self.old) { asks = asks }) self.old }
    {
        match side {
            Side::Client => self.client.asks = asks,
            Side::Server => self.server.asks = asks,
        }
    }

    pub fn set_held(&mut self, side: Side, held: Text)
        ensures { self.new
            ≡ with_collected side (record (collected side self.old) { held = held }) self.old }
    {
        match side {
            Side::Client => self.client.held = held,
            Side::Server => self.server.held = held,
        }
    }

    /// Takes the held bytes of a side, whose collect is over.
    pub(crate) fn take_held(&mut self, alloc: Global, side: Side) -> Text
        ensures text { result ≡ (collected side self.old).held }
        ensures left { self.new ≡ with_collected side no_collect self.old }
    {
        let collected = match side {
            Side::Client => mem::replace(&mut self.client, no_collect(alloc)),
            Side::Server => mem::replace(&mut self.server, no_collect(alloc)),
        };
        collected.held
    }

    /// How many bytes of a side count as held though they were let go.
    pub(crate) fn gone(&self, side: Side) -> usize
        ensures { result ≡ gone side self.now }
    {
        match side {
            Side::Client => self.wishes.let_go.max(self.loose.len()),
            Side::Server => self.wishes.let_go,
        }
    }
}

/// How many bytes a collect still holds.
pub(crate) fn asked_bytes(asks: Asks) -> usize
    ensures { result ≡ asked_bytes asks }
{
    match asks {
        Asks::NotAsked => 0,
        Asks::Stated(count) => count,
    }
}

/// Whether so many bytes, those that are gone, and those that a collect is to hold may be held
/// together.
pub(crate) fn holds(held: usize, out: usize, wanted: usize) -> bool
    ensures { result ≡ holds held out wanted }
{
    held <= HOLD_LIMIT && out <= HOLD_LIMIT - held && wanted <= HOLD_LIMIT - held - out
}

/// So many bytes from a place on replaced, or as many as are there.
pub(crate) fn replaced(
    alloc: Global,
    offset: usize,
    count: usize,
    text: &Text,
    held: &[u8],
) -> M<Text>
    ensures { IfOk result (λ t. t ≡ replaced offset count text.now held.now) }
{
    let (front, rest) = held.split_at(offset.min(held.len()));
    let (_, back) = rest.split_at(count.min(rest.len()));
    let mut changed = Text::new(alloc, front)?;
    changed.push(text.as_bytes())?;
    changed.push(back)?;
    Ok(changed)
}
