// Bytes that were read and not used yet.

ghost use Rattle.std.specs.Prelude.{◌≡◌, ◌≤◌, ℕ, List, [], ◌++◌, length, take, drop, IfOk, OnOk};
ghost use Rattle.std.specs.Prelude.{OnErr, vec_len};
ghost use Rattle.seg_buffer.specs.Bytes.{is_empty};

use px_bytes::{M, Text};
use std::alloc::Global;
use std::marker::Model;

/// A list of bytes that grows at its end and is used up from its front. What is used up is only
/// skipped; its room is used again once it is as long as the rest.
#[derive(Drop)]
pub struct Held {
    bytes: Vec<u8>,
    start: usize,
}

impl Model for Held {
    ghost Value = { List ℕ };

    ghost view = { λ h. drop h.start h.bytes.items };

    ghost invariant = { λ h. h.start ≤ vec_len h.bytes };
}

impl Held {
    /// No bytes, which takes no memory.
    pub fn new(alloc: Global) -> Held
        ensures { result ≡ [] }
    {
        Held {
            bytes: Vec::new(alloc),
            start: 0,
        }
    }

    pub fn len(&self) -> usize
        ensures { result ≡ length self.now }
    {
        self.bytes.len() - self.start
    }

    pub fn is_empty(&self) -> bool
        ensures { result ≡ is_empty self.now }
    {
        self.len() == 0
    }

    /// Adds bytes behind those that are there.
    pub fn push(&mut self, more: &[u8]) -> M<()>
        ensures ok { OnOk result (self.new ≡ self.old ++ more.now) }
        ensures err { OnErr result (self.new ≡ self.old) }
    {
        self.bytes.extend_from_slice(more)?;
        Ok(())
    }

    /// All of them.
    pub fn front(&self) -> &[u8]
        ensures { result.now ≡ self.now }
    {
        &self.bytes[self.start..]
    }

    /// The first `n` bytes.
    pub fn copy(&self, n: usize) -> M<Text>
        requires { n ≤ length self.now }
        ensures { IfOk result (λ t. t ≡ take n self.now) }
    {
        Text::new(*self.bytes.allocator(), &self.front()[..n])
    }

    /// Uses up the first `n` bytes. Over a whole life each byte is moved at most once.
    pub fn drop_front(&mut self, n: usize)
        requires { n ≤ length self.old }
        ensures { self.new ≡ drop n self.old }
    {
        self.start += n;
        let left = self.bytes.len() - self.start;
        if left <= self.start {
            self.bytes.copy_within(self.start.., 0);
            self.bytes.truncate(left);
            self.start = 0;
        }
    }

    /// Uses up the first `n` bytes, and gives them.
    pub fn take(&mut self, n: usize) -> M<Text>
        requires { n ≤ length self.old }
        ensures text { IfOk result (λ t. t ≡ take n self.old) }
        ensures ok { OnOk result (self.new ≡ drop n self.old) }
        ensures err { OnErr result (self.new ≡ self.old) }
    {
        let text = self.copy(n)?;
        self.drop_front(n);
        Ok(text)
    }
}
