// Bytes that came of a side and weren't read, and what of them was looked at.

ghost use Rattle.std.specs.Prelude.{◌≡◌, ◌≤◌, ◌<◌, ◌^◌, ◌++◌, [], length, drop, OnErr, OnOk};
ghost use Rattle.seg_buffer.specs.Bytes.{is_empty};
ghost use Rattle.conn.specs.Seen.{IsSeen};
ghost use Rattle.http_heads.specs.Fronts.{WereLooked, head_part};
ghost use Rattle.http_frames.specs.Looked.{LookedAt};
ghost use Rattle.http_frames.specs.NextUnit.{unit_of};

use crate::queue::Queue;
use http_frames::{BodyState, Unit, next_unit_behind};
use http_heads::{HeadPart, Looked};
use px_bytes::M;
use seg_buffer::Held;
use std::alloc::Global;
use std::marker::Model;

/// What of the bytes at the front was looked at.
#[derive(Clone, Copy)]
pub(crate) enum Seen {
    Nothing,
    /// For the end of a head.
    Head(Looked),
    /// So many of them, which held no whole unit for a body's reader that stands there.
    Body { reader: BodyState, looked: usize },
}

/// Bytes that came of a side and weren't read. What was looked at in vain isn't looked at again.
#[derive(Drop)]
pub struct Unread {
    bytes: Held,
    seen: Seen,
}

impl Model for Unread {
    ghost use Rattle.std.specs.Prelude.{ℕ, List};
    ghost use Rattle.conn.specs.Seen.{IsSeen};

    ghost Value = { List ℕ };

    ghost view = { λ u. u.bytes };

    ghost invariant = { λ u. IsSeen u.bytes u.seen };
}

impl Unread {
    pub(crate) fn new(alloc: Global) -> Unread
        ensures { result ≡ [] }
    {
        Unread {
            bytes: Held::new(alloc),
            seen: Seen::Nothing,
        }
    }

    pub(crate) fn len(&self) -> usize
        ensures { result ≡ length self.now }
    {
        self.bytes.len()
    }

    pub(crate) fn is_empty(&self) -> bool
        ensures { result ≡ is_empty self.now }
    {
        self.bytes.is_empty()
    }

    /// All of them.
    pub(crate) fn front(&self) -> &[u8]
        ensures { result.now ≡ self.now }
    {
        self.bytes.front()
    }

    /// Adds bytes behind those that are there.
    #[tactic(auto, using(crate::proofs::Seen::still_seen))]
    pub(crate) fn push(&mut self, more: &[u8]) -> M<()>
        ensures ok { OnOk result (self.new ≡ self.old ++ more.now) }
        ensures err { OnErr result (self.new ≡ self.old) }
    {
        self.bytes.push(more)
    }

    /// Uses up the first `n` bytes.
    pub(crate) fn drop_front(&mut self, n: usize)
        requires { n ≤ length self.old }
        ensures { self.new ≡ drop n self.old }
    {
        self.seen = Seen::Nothing;
        self.bytes.drop_front(n);
    }

    /// All of them go to a queue in which none waits, where they aren't too many.
    pub(crate) fn give(&mut self, queue: &mut Queue)
        requires none { queue.old ≡ [] }
        requires few { length self.old < 2 ^ 62 }
        ensures all { queue.new ≡ self.old }
        ensures left { self.new ≡ [] }
    {
        self.seen = Seen::Nothing;
        queue.swap(&mut self.bytes);
    }

    /// What stands where the head of a request is due.
    #[tactic(auto, using(crate::proofs::Seen::looks_seen))]
    pub(crate) fn head(&mut self, ended: bool) -> HeadPart
        ensures value { result ≡ head_part self.old ended }
        ensures same { self.new ≡ self.old }
    {
        let held = self.bytes.front();
        let mut looked = before_head(self.seen, held);
        let part = looked.head_part(held, ended);
        self.seen = Seen::Head(looked);
        part
    }

    /// What stands next of a body whose reader stands there.
    pub(crate) fn unit(&mut self, reader: BodyState, ended: bool) -> Unit
        ensures value { result ≡ unit_of reader self.old ended }
        ensures same { self.new ≡ self.old }
    {
        let held = self.bytes.front();
        let looked = before_unit(self.seen, held, reader);
        let unit = next_unit_behind(reader, held, looked, ended);
        if let Unit::NotYet = unit {
            let looked = held.len();
            self.seen = Seen::Body { reader, looked };
        }
        unit
    }
}

// What of them was looked at for a head's end.
fn before_head(seen: Seen, held: &[u8]) -> Looked
    requires { IsSeen held.now seen }
    ensures { WereLooked result held.now }
{
    match seen {
        Seen::Head(looked) => looked,
        Seen::Nothing | Seen::Body { .. } => Looked::nothing(),
    }
}

// How many were looked at for a unit of a body whose reader stands there.
fn before_unit(seen: Seen, held: &[u8], reader: BodyState) -> usize
    requires { IsSeen held.now seen }
    ensures within { result ≤ length held.now }
    ensures none { LookedAt reader held.now result }
{
    match seen {
        Seen::Body {
            reader: before,
            looked,
        } if before == reader => looked,
        _ => 0,
    }
}
