// Bytes that wait for an end.

ghost use Rattle.std.specs.Prelude.{◌≡◌, ◌≤◌, ◌<◌, ◌^◌, ◌++◌, [], length, take, drop, IfOk, OnErr, OnOk};
ghost use Rattle.seg_buffer.specs.Bytes.{is_empty};

use px_bytes::{M, Memory, Text};
use seg_buffer::Held;
use std::alloc::Global;
use std::marker::Model;
use std::mem;

/// More bytes than may wait for an end: so what waits for all ends can be counted.
const TOO_MANY: usize = 4_611_686_018_427_387_904;

/// Bytes that wait for an end, fewer than 2^62.
#[derive(Drop)]
pub struct Queue {
    bytes: Held,
}

impl Model for Queue {
    ghost use Rattle.std.specs.Prelude.{ℕ, List, length, ◌<◌, ◌^◌};

    ghost Value = { List ℕ };

    ghost view = { λ q. q.bytes };

    ghost invariant = { λ q. length q.bytes < 2 ^ 62 };
}

impl Queue {
    pub(crate) fn new(alloc: Global) -> Queue
        ensures { result ≡ [] }
    {
        Queue {
            bytes: Held::new(alloc),
        }
    }

    pub(crate) fn len(&self) -> usize
        ensures exact { result ≡ length self.now }
        ensures small { result < 2 ^ 62 }
    {
        self.bytes.len()
    }

    pub(crate) fn is_empty(&self) -> bool
        ensures { result ≡ is_empty self.now }
    {
        self.bytes.is_empty()
    }

    /// Adds bytes behind those that wait.
    pub(crate) fn push(&mut self, more: &[u8]) -> M<()>
        ensures ok { OnOk result (self.new ≡ self.old ++ more.now) }
        ensures err { OnErr result (self.new ≡ self.old) }
    {
        if more.len() >= TOO_MANY - self.bytes.len() {
            return Err(Memory);
        }
        self.bytes.push(more)
    }

    /// All of them, where none waits, and they aren't too many: so no byte is copied.
    pub(crate) fn swap(&mut self, more: &mut Held)
        requires none { self.old ≡ [] }
        requires few { length more.old < 2 ^ 62 }
        ensures all { self.new ≡ more.old }
        ensures left { more.new ≡ [] }
    {
        mem::swap(more, &mut self.bytes);
    }

    pub(crate) fn front(&self) -> &[u8]
        ensures { result.now ≡ self.now }
    {
        self.bytes.front()
    }

    /// The first `n` bytes.
    pub(crate) fn copy(&self, n: usize) -> M<Text>
        requires { n ≤ length self.now }
        ensures { IfOk result (λ t. t ≡ take n self.now) }
    {
        self.bytes.copy(n)
    }

    /// The first `n` bytes were taken.
    pub(crate) fn drop_front(&mut self, n: usize)
        requires { n ≤ length self.old }
        ensures { self.new ≡ drop n self.old }
    {
        self.bytes.drop_front(n);
    }
}
