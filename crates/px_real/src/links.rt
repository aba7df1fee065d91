// The open links by their numbers.

ghost use Rattle.std.specs.Prelude.{◌≡◌, ◌<◌, ◌==◌, ◌||◌, ◌&&◌, ℕ, not, false, true, length, OnOk};
ghost use Rattle.std.specs.Prelude.{OnErr};
ghost use Rattle.px_outside.specs.Net.{ReadsWithin, WritesWithin};
ghost use Rattle.px_real.specs.Links.{is_open, open_count, SameLinks};

use crate::link::Link;
use mio::event::Event;
use mio::{Poll, Token};
use px_bytes::M;
use px_outside::{ConnectAnswer, ReadAnswer, WriteAnswer};
use std::alloc::Global;
use std::collections::HashMap;

/// The open links. What is not open is not there.
#[derive(Drop)]
pub(crate) struct Links {
    map: HashMap<u32, Link>,
}

impl Links {
    pub(crate) fn new(alloc: Global) -> Links
        ensures { (n : ℕ) → is_open result n ≡ false }
    {
        Links {
            map: HashMap::new(alloc),
        }
    }

    pub(crate) fn len(&self) -> usize
        ensures { result ≡ open_count self.now }
    {
        self.map.len()
    }

    pub(crate) fn has(&self, number: u32) -> bool
        ensures { result ≡ is_open self.now number }
    {
        self.map.contains_key(&number)
    }

    /// Makes room for one more.
    pub(crate) fn reserve(&mut self) -> M<()>
        ensures { SameLinks self.old self.new }
    {
        self.map.reserve(1)?;
        Ok(())
    }

    pub(crate) fn put(&mut self, number: u32, link: Link) -> M<()>
        ensures ok { OnOk result
            ((n : ℕ) → is_open self.new n ≡ (number == n || is_open self.old n)) }
        ensures err { OnErr result (SameLinks self.old self.new) }
    {
        self.map.insert(number, link)?;
        Ok(())
    }

    pub(crate) fn remove(&mut self, number: u32) -> Option<Link>
        ensures { (n : ℕ) → is_open self.new n ≡ (not (number == n) && is_open self.old n) }
    {
        self.map.remove(&number)
    }

    /// Takes down what the system reports of a link.
    pub(crate) fn mark(&mut self, number: u32, event: &Event)
        ensures { SameLinks self.old self.new }
    {
        if let Some(link) = self.map.get_mut(&number) {
            link.mark(event);
        }
    }

    pub(crate) fn answer(&self, number: u32) -> ConnectAnswer {
        match self.map.get(&number) {
            Some(link) => link.answer(),
            None => ConnectAnswer::NotYet,
        }
    }

    pub(crate) fn read(&mut self, number: u32, room: &mut [u8]) -> ReadAnswer
        requires { 0 < length room.old }
        ensures same { SameLinks self.old self.new }
        ensures within { ReadsWithin (length room.old) result }
    {
        match self.map.get_mut(&number) {
            Some(link) => link.read(room),
            None => ReadAnswer::NotYet,
        }
    }

    pub(crate) fn write(&mut self, number: u32, bytes: &[u8], poll: &Poll) -> WriteAnswer
        requires { 0 < length bytes.now }
        ensures same { SameLinks self.old self.new }
        ensures within { WritesWithin (length bytes.now) result }
    {
        match self.map.get_mut(&number) {
            Some(link) => {
                let answer = link.write(bytes);
                link.await_room(poll, Token(number as usize));
                answer
            }
            None => WriteAnswer::NotYet,
        }
    }

    pub(crate) fn finish(&self, number: u32) {
        if let Some(link) = self.map.get(&number) {
            link.finish();
        }
    }
}
