// A net in memory, by the scripts of its links.

ghost use Rattle.std.specs.Prelude.{◌≡◌, ◌+◌, ◌<◌, ◌≤◌, ◌^◌, ◌++◌, [], map, length, OnOk, IfOk};
ghost use Rattle.std.specs.Prelude.{IsErrOf, MatchOption, Option, Some, None, option_map};
ghost use Rattle.std.specs.Prelude.{slice_get, vec_len};
ghost use Rattle.px_outside.specs.declared.answers.ReadyAt.TheVariants as ready;
ghost use Rattle.px_outside.specs.MemLink.{is_over, over};
ghost use Rattle.px_outside.specs.MemNet.{
  NetInMemory,
  Does,
  IsGiven,
  IsAliveLink,
  IsFree,
  IsOpen,
  faults_of,
  free_from,
  place_of,
  has_ended,
  alive_from,
  taken_by,
};

use crate::{
    Accepted, ConnectAnswer, Failed, MemLink, MemRead, Net, NetFails, ReadAnswer, ReadyAt,
    ReadyList, WriteAnswer,
};
use px_bytes::{Addr, M, Seq};
use std::alloc::Global;
use std::marker::Model;

/// Links by their scripts, of which calls with given numbers fail. The first link has number 1.
#[derive(Drop)]
pub struct MemNet {
    links: Vec<MemLink>,
    slots: Seq<u32>,
    fails: NetFails,
    listens: u64,
    waits: u64,
    accepts: u64,
    connects: u64,
    faults: u64,
}

impl Model for MemNet {
    ghost Value = { NetInMemory };

    ghost view = { λ m. record {
      links = m.links.items;
      slots = m.slots;
      fails = m.fails;
      listens = m.listens;
      waits = m.waits;
      accepts = m.accepts;
      connects = m.connects;
      faults = m.faults;
    } };

    ghost invariant = { λ m. vec_len m.links < 2 ^ 32 };
}

impl MemNet {
    pub fn new(alloc: Global, links: Vec<MemLink>, fails: NetFails) -> MemNet
        requires { vec_len links < 2 ^ 32 }
        ensures { result ≡ record {
          links = links.items;
          slots = [];
          fails = fails;
          listens = 0;
          waits = 0;
          accepts = 0;
          connects = 0;
          faults = 0;
        } }
    {
        MemNet {
            links,
            slots: Seq::new(alloc),
            fails,
            listens: 0,
            waits: 0,
            accepts: 0,
            connects: 0,
            faults: 0,
        }
    }

    /// The bytes that a link took so far.
    pub fn taken(&self, link: u32) -> Option<&[u8]>
        ensures { option_map (λ x. x.now) result ≡ taken_by self.now.links link }
    {
        if link == 0 {
            return None;
        }
        match self.links.get(link as usize - 1) {
            Some(link) => Some(link.taken()),
            None => None,
        }
    }

    fn free(&self, slot: Option<u32>) -> Option<usize>
        ensures first { result ≡ free_from 0 self.now.links slot }
        ensures is_free { MatchOption result (Unit {0}) (IsFree self.now.links) }
    {
        for (i, link) in self.links.iter().enumerate() {
            if link.is_free(slot) {
                return Some(i);
            }
        }
        None
    }

    fn place(&self, link: u32) -> Option<usize>
        ensures place { result ≡ place_of self.now.links link }
        ensures is_open { MatchOption result (Unit {0}) (IsOpen self.now.links) }
    {
        if link == 0 {
            return None;
        }
        let i = link as usize - 1;
        if i >= self.links.len() {
            return None;
        }
        if !self.links[i].is_alive() {
            return None;
        }
        Some(i)
    }

    fn has_ended(&self, link: u32) -> bool
        ensures { result ≡ has_ended self.now.links link }
    {
        if link == 0 {
            return false;
        }
        match self.links.get(link as usize - 1) {
            Some(link) => link.has_ended(),
            None => false,
        }
    }

    fn is_over(&self, item: &MemRead) -> bool
        ensures { result ≡ is_over (has_ended self.now.links) item.now }
    {
        match item {
            MemRead::After(link) => self.has_ended(*link),
            _ => false,
        }
    }

    fn over_items(&self, reads: &[MemRead]) -> usize
        ensures { result ≡ over (has_ended self.now.links) reads.now }
    {
        let mut n = 0;
        for item in reads {
            if !self.is_over(item) {
                return n;
            }
            n += 1;
        }
        n
    }

    // How many items at the front of a script are over.
    fn over(&self, link: &MemLink) -> usize
        ensures over { result ≡ over (has_ended self.now.links) link.now.reads }
        ensures within { result ≤ length link.now.reads }
    {
        self.over_items(link.left())
    }

    fn list_slots(&self, out: &mut ReadyList) -> M<()>
        ensures { OnOk result (out.new ≡ out.old ++ map ready.Listener self.now.slots) }
    {
        for slot in self.slots.as_slice() {
            out.push(ReadyAt::Listener(*slot))?;
        }
        Ok(())
    }

    fn list_links(&self, out: &mut ReadyList) -> M<()>
        ensures { OnOk result (out.new ≡ out.old ++ alive_from 0 self.now.links) }
    {
        for (i, link) in self.links.iter().enumerate() {
            if link.is_alive() {
                out.push(ReadyAt::Link(i as u32 + 1))?;
            }
        }
        Ok(())
    }
}

impl Net for MemNet {
    ghost did = { Does };

    ghost gave = { IsGiven };

    ghost alive = { IsAliveLink };

    ghost faults = { λ m. m.faults };

    ghost link_faults = { faults_of };

    fn listen(&mut self, slot: u32, at: Addr) -> Result<(), Failed> {
        self.listens = self.listens.saturating_add(1);
        if self.fails.listen.as_slice().contains(&self.listens) {
            self.faults = self.faults.saturating_add(1);
            return Err(Failed::Failed);
        }
        match self.slots.push(slot) {
            Ok(()) => Ok(()),
            Err(_) => Err(Failed::Memory),
        }
    }

    fn wait(&mut self, until: u64, out: &mut ReadyList) -> Result<(), Failed> {
        self.waits = self.waits.saturating_add(1);
        out.clear();
        if self.fails.wait.as_slice().contains(&self.waits) {
            self.faults = self.faults.saturating_add(1);
            return Err(Failed::Failed);
        }
        match self.list_slots(out) {
            Ok(()) => {}
            Err(_) => return Err(Failed::Memory),
        }
        match self.list_links(out) {
            Ok(()) => Ok(()),
            Err(_) => Err(Failed::Memory),
        }
    }

    fn accept(&mut self, slot: u32) -> Result<Accepted, Failed> {
        self.accepts = self.accepts.saturating_add(1);
        if self.fails.accept.as_slice().contains(&self.accepts) {
            self.faults = self.faults.saturating_add(1);
            return Err(Failed::Failed);
        }
        match self.free(Some(slot)) {
            Some(i) => {
                let from = self.links[i].give();
                Ok(Accepted::One {
                    link: i as u32 + 1,
                    from,
                })
            }
            None => Ok(Accepted::NotYet),
        }
    }

    fn connect(&mut self, to: Addr) -> Result<u32, Failed> {
        self.connects = self.connects.saturating_add(1);
        if self.fails.connect.as_slice().contains(&self.connects) {
            self.faults = self.faults.saturating_add(1);
            return Err(Failed::Failed);
        }
        if let Some(i) = self.free(None) {
            self.links[i].give();
            return Ok(i as u32 + 1);
        }
        let count = self.links.len();
        if count == u32::MAX as usize {
            self.faults = self.faults.saturating_add(1);
            return Err(Failed::Failed);
        }
        let alloc = *self.links.allocator();
        match self.links.push(MemLink::refused(alloc, to)) {
            Ok(()) => Ok(count as u32 + 1),
            Err(_) => Err(Failed::Memory),
        }
    }

    fn connect_answer(&mut self, link: u32) -> ConnectAnswer {
        match self.place(link) {
            Some(i) => self.links[i].answer(),
            None => ConnectAnswer::NotYet,
        }
    }

    fn read(&mut self, link: u32, room: &mut [u8]) -> ReadAnswer {
        match self.place(link) {
            Some(i) => {
                let over = self.over(&self.links[i]);
                let link = &mut self.links[i];
                link.pass(over);
                link.read(room)
            }
            None => ReadAnswer::NotYet,
        }
    }

    fn write(&mut self, link: u32, bytes: &[u8]) -> WriteAnswer {
        match self.place(link) {
            Some(i) => self.links[i].write(bytes),
            None => WriteAnswer::NotYet,
        }
    }

    fn finish(&mut self, link: u32) {}

    fn close(&mut self, link: u32) {
        match self.place(link) {
            Some(i) => self.links[i].close(),
            None => {}
        }
    }
}
