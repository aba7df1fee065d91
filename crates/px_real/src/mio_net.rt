// Sockets of this system.

ghost use Rattle.std.specs.Prelude.{⊤, ◌≡◌, ◌≤◌, ◌<◌, true, IfOk, IfErr, OnOk};
ghost use Rattle.px_outside.specs.declared.failed.Failed.TheVariants.{Memory};
ghost use Rattle.px_outside.specs.Outside.{Rose, counted_up};
ghost use Rattle.px_outside.specs.Net.{ListsAlive};
ghost use Rattle.px_real.specs.Links.{IsOpen, SameLinks, open_count};

use crate::RealClock;
use crate::lingering::Lingering;
use crate::link::Link;
use crate::links::Links;
use crate::sockets::{LISTENERS, Taken, begin, open, take};
use mio::net::TcpListener;
use mio::{Events, Poll};
use px_bytes::{Addr, M};
use px_outside::{
    Accepted, Clock, ConnectAnswer, Failed, Net, ReadAnswer, ReadyAt, ReadyList, WriteAnswer,
};
use std::alloc::Global;
use std::net;
use std::time::{self, Duration};

/// How many events one wait takes.
const EVENTS: usize = 1_024;

/// How long a wait lasts while something is to be tried again, in milliseconds.
const AGAIN: u64 = 100;

/// Sockets, of which nothing is told but numbers and counts. One count of faults serves all links.
#[derive(Drop)]
pub struct MioNet<R> {
    rt: R,
    clock: RealClock<R>,
    // None where the system gave none: then nothing can be opened
    poll: Option<Poll>,
    events: Events,
    listeners: Vec<TcpListener>,
    links: Links,
    lingering: Lingering,
    // links that were refused at once, of which no event will tell
    refused: Vec<u32>,
    // descriptors ran out at an accept, and no event will tell of those that still wait
    scarce: bool,
    next: u32,
    faults: u64,
    lost: u64,
    ghost numbered: { 0 < next },
}

impl<R: net::Net + time::Clock + Drop> MioNet<R> {
    ghost use Rattle.px_real.specs.Real.{IsFresh};

    /// A net with no socket, whose waits go by this clock. The error is want of memory.
    pub fn new(alloc: Global, rt: R, clock: RealClock<R>) -> Result<MioNet<R>, Failed>
        ensures fresh { IfOk result IsFresh }
        ensures memory { IfErr result (λ why. why ≡ Memory) }
    {
        let poll = Poll::new(&rt).ok();
        let (Ok(events), Ok(lingering)) = (
            Events::with_capacity(alloc, EVENTS),
            Lingering::new(alloc),
        ) else {
            return Err(Failed::Memory);
        };
        Ok(MioNet {
            rt,
            clock,
            poll,
            events,
            listeners: Vec::new(alloc),
            links: Links::new(alloc),
            lingering,
            refused: Vec::new(alloc),
            scarce: false,
            next: 1,
            faults: 0,
            lost: 0,
        })
    }

    /// How many links are open.
    pub fn links(&self) -> usize
        ensures { result ≡ open_count self.now.links }
    {
        self.links.len()
    }

    // Whether no link is there, open or lingering, whose end would give a descriptor back.
    fn holds_none(&self) -> bool {
        self.links.len() == 0 && self.lingering.is_empty()
    }

    // None for a wait without end.
    fn timeout(&self, until: u64, now: u64) -> Option<Duration> {
        if !self.refused.is_empty() {
            return Some(Duration::from_millis(0));
        }
        let again = self.scarce || !self.lingering.is_empty();
        if until == u64::MAX && !again {
            return None;
        }
        let millis = until.saturating_sub(now);
        Some(Duration::from_millis(if again { millis.min(AGAIN) } else { millis }))
    }
}

// What one more fault leaves of a count.
fn counted(count: u64) -> u64
    ensures { result ≡ counted_up count }
{
    count.saturating_add(1)
}

// Takes down what the system reports, and throws away what came of closed links.
fn mark(events: &Events, links: &mut Links, lingering: &mut Lingering)
    ensures { SameLinks links.old links.new }
{
    for event in events.iter() {
        if let Ok(number) = u32::try_from(event.token().0) {
            if links.has(number) {
                links.mark(number, event);
            } else {
                lingering.drain(number);
            }
        }
    }
}

// Lists what the system reports: open links and listeners.
fn list(events: &Events, links: &Links, out: &mut ReadyList) -> M<()>
    requires { ListsAlive (IsOpen links.now) out.old }
    ensures { ListsAlive (IsOpen links.now) out.new }
{
    for event in events.iter() {
        let token = event.token().0;
        match u32::try_from(token) {
            Ok(number) => {
                if links.has(number) {
                    out.push(ReadyAt::Link(number))?;
                }
            }
            Err(_) => {
                let slot = u32::try_from(token - LISTENERS).unwrap_or(0);
                out.push(ReadyAt::Listener(slot))?;
            }
        }
    }
    Ok(())
}

// Lists those of the links that are open.
fn list_links(links: &Links, numbers: &[u32], out: &mut ReadyList) -> M<()>
    requires { ListsAlive (IsOpen links.now) out.old }
    ensures { ListsAlive (IsOpen links.now) out.new }
{
    for number in numbers {
        if links.has(*number) {
            out.push(ReadyAt::Link(*number))?;
        }
    }
    Ok(())
}

// Lists every listener.
fn list_listeners(links: &Links, count: usize, out: &mut ReadyList) -> M<()>
    requires { ListsAlive (IsOpen links.now) out.old }
    ensures { ListsAlive (IsOpen links.now) out.new }
{
    for slot in 0..count {
        out.push(ReadyAt::Listener(u32::try_from(slot).unwrap_or(0)))?;
    }
    Ok(())
}

impl<R: net::Net + time::Clock + Drop> Net for MioNet<R> {
    ghost use Rattle.px_real.specs.Real.{Gave};

    ghost did = { λ _ _ _. ⊤ };

    ghost gave = { Gave };

    ghost alive = { λ w n. IsOpen w.links n };

    ghost faults = { λ w. w.faults };

    ghost link_faults = { λ w link. w.lost };

    fn listen(&mut self, slot: u32, at: Addr) -> Result<(), Failed> {
        let opened = match &self.poll {
            Some(poll) => open(&self.rt, poll, slot, at).ok(),
            None => None,
        };
        let Some(listener) = opened else {
            self.faults = counted(self.faults);
            return Err(Failed::Failed);
        };
        match self.listeners.push(listener) {
            Ok(()) => Ok(()),
            Err(_) => Err(Failed::Memory),
        }
    }

    fn wait(&mut self, until: u64, out: &mut ReadyList) -> Result<(), Failed> {
        out.clear();
        let now = self.clock.now();
        self.lingering.expire(now);
        let timeout = self.timeout(until, now);
        let waited = match &mut self.poll {
            Some(poll) => poll.poll(&mut self.events, timeout).is_ok(),
            None => false,
        };
        if !waited {
            self.faults = counted(self.faults);
            return Err(Failed::Failed);
        }
        mark(&self.events, &mut self.links, &mut self.lingering);
        if self.scarce {
            self.scarce = false;
            list_listeners(&self.links, self.listeners.len(), out)?;
        }
        list_links(&self.links, &self.refused, out)?;
        self.refused.clear();
        list(&self.events, &self.links, out)?;
        Ok(())
    }

    fn accept(&mut self, slot: u32) -> Result<Accepted, Failed> {
        let number = self.next;
        if number == u32::MAX {
            self.faults = counted(self.faults);
            return Err(Failed::Failed);
        }
        self.links.reserve()?;
        let taken = match (self.listeners.get(slot as usize), &self.poll) {
            (Some(listener), Some(poll)) => take(listener, poll, number),
            _ => Taken::NotYet,
        };
        match taken {
            Taken::One(stream, from) => {
                self.links.put(number, Link::accepted(stream))?;
                self.next = number + 1;
                Ok(Accepted::One { link: number, from })
            }
            Taken::NotYet => Ok(Accepted::NotYet),
            Taken::Full if self.holds_none() => {
                self.faults = counted(self.faults);
                Err(Failed::Failed)
            }
            Taken::Broken | Taken::Scarce | Taken::Full => {
                self.scarce = true;
                self.lost = counted(self.lost);
                Ok(Accepted::NotYet)
            }
            Taken::Failed => {
                self.faults = counted(self.faults);
                Err(Failed::Failed)
            }
        }
    }

    fn connect(&mut self, to: Addr) -> Result<u32, Failed> {
        let number = self.next;
        if number == u32::MAX {
            self.faults = counted(self.faults);
            return Err(Failed::Failed);
        }
        self.links.reserve()?;
        let link = match &self.poll {
            Some(poll) => begin(&self.rt, poll, number, to),
            None => Link::begun(None),
        };
        if link.is_lost() && self.refused.push(number).is_err() {
            return Err(Failed::Memory);
        }
        self.links.put(number, link)?;
        self.next = number + 1;
        Ok(number)
    }

    fn connect_answer(&mut self, link: u32) -> ConnectAnswer {
        match self.links.answer(link) {
            ConnectAnswer::Refused => {
                self.links.remove(link);
                self.lost = counted(self.lost);
                ConnectAnswer::Refused
            }
            ConnectAnswer::Connected => ConnectAnswer::Connected,
            ConnectAnswer::NotYet => ConnectAnswer::NotYet,
        }
    }

    fn read(&mut self, link: u32, room: &mut [u8]) -> ReadAnswer {
        match self.links.read(link, room) {
            ReadAnswer::Reset => {
                self.lost = counted(self.lost);
                ReadAnswer::Reset
            }
            answer => answer,
        }
    }

    fn write(&mut self, link: u32, bytes: &[u8]) -> WriteAnswer {
        let Some(poll) = &self.poll else {
            return WriteAnswer::NotYet;
        };
        match self.links.write(link, bytes, poll) {
            WriteAnswer::Reset => {
                self.lost = counted(self.lost);
                WriteAnswer::Reset
            }
            answer => answer,
        }
    }

    fn finish(&mut self, link: u32) {
        self.links.finish(link);
    }

    fn close(&mut self, link: u32) {
        let Some(closed) = self.links.remove(link) else {
            return;
        };
        if let Some((stream, reported)) = closed.unread() {
            let now = self.clock.now();
            self.lingering.keep(link, stream, reported, now);
        }
    }
}
