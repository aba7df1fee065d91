// A link in memory, by its scripts.

ghost use Rattle.std.specs.Prelude.{◌≡◌, ◌<◌, ◌≤◌, ℕ, Bool, [], length, take, drop, min, Some};
ghost use Rattle.std.specs.Prelude.{slice_get, not, ◌&&◌, nat_eq, false, true};
ghost use Rattle.std.specs.Option.{option_eq};
ghost use Rattle.px_outside.specs.Net.{got, ReadsWithin, WritesWithin};
ghost use Rattle.px_outside.specs.Outside.{counted_up};
ghost use Rattle.px_outside.specs.declared.mem_script.MemWrite.TheVariants as item;
ghost use Rattle.px_outside.specs.MemLink.{
  LinkInMemory,
  cut_front,
  IsPlace,
  refused_link,
  over,
  ReadsLink,
  WritesLink,
  write_answer,
  writes_left,
  after_answer,
  Keeps,
};

use crate::{
    ConnectAnswer, MemRead, MemReads, MemScript, MemWrite, MemWrites, ReadAnswer, WriteAnswer,
};
use px_bytes::{Addr, Text};
use std::alloc::Global;
use std::marker::Model;

/// A link in memory, with what is left of its scripts.
#[derive(Drop)]
pub struct MemLink {
    slot: Option<u32>,
    from: Addr,
    connect: ConnectAnswer,
    reads: MemReads,
    read_at: usize,
    // of the bytes of the first item that is left
    done: usize,
    writes: MemWrites,
    write_at: usize,
    given: bool,
    alive: bool,
    ended: bool,
    taken: Text,
    faults: u64,
}

impl Model for MemLink {
    ghost Value = { LinkInMemory };

    ghost view = { λ l. record {
      slot = l.slot;
      from = l.from;
      connect = l.connect;
      reads = cut_front l.done (drop l.read_at l.reads.items);
      writes = drop l.write_at l.writes.items;
      given = l.given;
      alive = l.alive;
      ended = l.ended;
      taken = l.taken;
      faults = l.faults;
    } };

    ghost invariant = { λ l. IsPlace l.reads.items l.read_at l.done };
}

impl MemLink {
    /// A link that nothing gave yet.
    pub fn new(alloc: Global, script: MemScript) -> MemLink
        ensures { result ≡ record {
          slot = script.slot;
          from = script.from;
          connect = script.connect;
          reads = script.reads.items;
          writes = script.writes.items;
          given = false;
          alive = false;
          ended = false;
          taken = [];
          faults = 0;
        } }
    {
        MemLink {
            slot: script.slot,
            from: script.from,
            connect: script.connect,
            reads: script.reads,
            read_at: 0,
            done: 0,
            writes: script.writes,
            write_at: 0,
            given: false,
            alive: false,
            ended: false,
            taken: Text::empty(alloc),
            faults: 0,
        }
    }

    /// A link that was given and is refused.
    pub(crate) fn refused(alloc: Global, to: Addr) -> MemLink
        ensures { result ≡ refused_link to }
    {
        MemLink {
            slot: None,
            from: to,
            connect: ConnectAnswer::Refused,
            reads: Vec::new(alloc),
            read_at: 0,
            done: 0,
            writes: Vec::new(alloc),
            write_at: 0,
            given: true,
            alive: true,
            ended: false,
            taken: Text::empty(alloc),
            faults: 0,
        }
    }

    /// It may be given by this slot, or by `connect` for none.
    pub(crate) fn is_free(&self, slot: Option<u32>) -> bool
        ensures { result ≡ (not self.now.given && option_eq nat_eq self.now.slot slot) }
    {
        !self.given && self.slot == slot
    }

    pub(crate) fn is_alive(&self) -> bool
        ensures { result ≡ self.now.alive }
    {
        self.alive
    }

    pub(crate) fn has_ended(&self) -> bool
        ensures { result ≡ self.now.ended }
    {
        self.ended
    }

    pub(crate) fn taken(&self) -> &[u8]
        ensures { result.now ≡ self.now.taken }
    {
        self.taken.as_bytes()
    }

    pub(crate) fn give(&mut self) -> Addr
        ensures from { result ≡ self.old.from }
        ensures given { self.new ≡ record self.old { given = true; alive = true } }
    {
        self.given = true;
        self.alive = true;
        self.from
    }

    pub(crate) fn close(&mut self)
        ensures { self.new ≡ record self.old { alive = false } }
    {
        self.alive = false;
    }

    pub(crate) fn answer(&mut self) -> ConnectAnswer
        ensures kept { Keeps self.old self.new }
        ensures answer { result ≡ self.old.connect }
        ensures after { self.new ≡ after_answer self.old result }
    {
        if self.connect == ConnectAnswer::Refused {
            self.alive = false;
            self.faults = self.faults.saturating_add(1);
        }
        self.connect
    }

    /// The items that are left, the first one whole.
    pub(crate) fn left(&self) -> &[MemRead]
        ensures { (ended : ℕ → Bool) → over ended result.now ≡ over ended self.now.reads }
    {
        &self.reads[self.read_at..]
    }

    /// Passes so many items.
    pub(crate) fn pass(&mut self, n: usize)
        requires { n ≤ length self.old.reads }
        ensures { self.new ≡ record self.old { reads = drop n self.old.reads } }
    {
        if n > 0 {
            self.read_at += n;
            self.done = 0;
        }
    }

    pub(crate) fn read(&mut self, room: &mut [u8]) -> ReadAnswer
        requires { 0 < length room.old }
        ensures kept { Keeps self.old self.new }
        ensures reset_is_counted { result ≡ ReadAnswer.Reset →
            self.new.faults ≡ counted_up self.old.faults }
        ensures within { ReadsWithin (length room.old) result }
        ensures reads { ReadsLink self.old (length room.old) result (got result room.new) self.new }
    {
        match self.reads.get(self.read_at) {
            None => ReadAnswer::NotYet,
            Some(MemRead::Bytes(text)) => {
                let left = rest_of(text.as_bytes(), self.done);
                if left.is_empty() {
                    self.read_at += 1;
                    self.done = 0;
                    return ReadAnswer::NotYet;
                }
                let n = put(room, left);
                if room.len() < left.len() {
                    self.done += n;
                } else {
                    self.read_at += 1;
                    self.done = 0;
                }
                ReadAnswer::Got(n)
            }
            Some(MemRead::After(_)) => ReadAnswer::NotYet,
            Some(MemRead::NotYet) => {
                self.read_at += 1;
                self.done = 0;
                ReadAnswer::NotYet
            }
            Some(MemRead::End) => {
                self.read_at += 1;
                self.done = 0;
                self.ended = true;
                ReadAnswer::End
            }
            Some(MemRead::Reset) => {
                self.read_at += 1;
                self.done = 0;
                self.faults = self.faults.saturating_add(1);
                ReadAnswer::Reset
            }
        }
    }

    // What the next write of so many bytes is answered, where there is memory for them.
    fn next_write(&self, len: usize) -> WriteAnswer
        ensures { result ≡ write_answer (slice_get self.now.writes 0) len }
    {
        match self.writes.get(self.write_at) {
            None => WriteAnswer::Took(len),
            Some(MemWrite::Upto(n)) => upto(*n, len),
            Some(MemWrite::NotYet) | Some(MemWrite::Never) => WriteAnswer::NotYet,
            Some(MemWrite::Reset) => WriteAnswer::Reset,
        }
    }

    fn use_up_write(&mut self)
        ensures { self.new ≡ record self.old { writes = writes_left self.old.writes } }
    {
        match self.writes.get(self.write_at) {
            None | Some(MemWrite::Never) => {}
            _ => self.write_at += 1,
        }
    }

    fn fail(&mut self)
        ensures { self.new ≡ record self.old { faults = counted_up self.old.faults } }
    {
        self.faults = self.faults.saturating_add(1);
    }

    pub(crate) fn write(&mut self, bytes: &[u8]) -> WriteAnswer
        requires { 0 < length bytes.now }
        ensures kept { Keeps self.old self.new }
        ensures reset_is_counted { result ≡ WriteAnswer.Reset →
            self.new.faults ≡ counted_up self.old.faults }
        ensures within { WritesWithin (length bytes.now) result }
        ensures writes { WritesLink self.old bytes.now result self.new }
    {
        match self.next_write(bytes.len()) {
            WriteAnswer::Took(n) => match self.taken.push(&bytes[..n]) {
                Ok(()) => {
                    self.use_up_write();
                    WriteAnswer::Took(n)
                }
                Err(_) => {
                    self.fail();
                    WriteAnswer::Reset
                }
            },
            WriteAnswer::NotYet => {
                self.use_up_write();
                WriteAnswer::NotYet
            }
            WriteAnswer::Reset => {
                self.use_up_write();
                self.fail();
                WriteAnswer::Reset
            }
        }
    }
}

fn upto(n: usize, len: usize) -> WriteAnswer
    ensures { result ≡ write_answer (Some (item.Upto n)) len }
{
    if n == 0 {
        return WriteAnswer::NotYet;
    }
    WriteAnswer::Took(n.min(len))
}

fn rest_of(bytes: &[u8], done: usize) -> &[u8]
    requires { done ≤ length bytes.now }
    ensures { result.now ≡ drop done bytes.now }
{
    &bytes[done..]
}

/// Copies what fits into the room.
fn put(room: &mut [u8], left: &[u8]) -> usize
    ensures count { result ≡ min (length room.old) (length left.now) }
    ensures bytes { take result room.new ≡ take (length room.old) left.now }
{
    let n = room.len().min(left.len());
    room[..n].copy_from_slice(&left[..n]);
    n
}
