// What a plan makes of a sender, a standby and what they send.

ghost use Rattle.std.specs.Prelude.{◌≡◌, IfOk, length, List, map, None, OnOk, ℕ};
ghost use Rattle.table_mirror.specs.Entries.{entry_view};
ghost use Rattle.table_mirror.specs.Network.{at_first, packet_at};
ghost use Rattle.table_mirror.specs.Pushed.{Entry};
ghost use Rattle.table_mirror.specs.Worlds.{Arrives, Shows, StepsTo, ToldBy};

use crate::entry::PushedEntry;
use crate::packet::{MirrorStop, Packet};
use crate::plan::PlanLine;
use crate::sender::Sender;
use crate::standby::Standby;
use px_bytes::M;
use std::alloc::Global;

/// A sender, a standby, and all packets that they sent.
#[derive(Drop)]
pub struct Network {
    pub sender: Sender,
    pub standby: Standby,
    pub packets: Vec<Packet>,
}

impl Network {
    /// Nothing was sent; `pushed`: how many entries there are; `limit`: how many rows the table may have.
    pub fn new(alloc: Global, pushed: usize, limit: u32) -> Network
        ensures { (entries : List Entry) → pushed ≡ length entries
            → Shows limit entries result at_first }
    {
        Network {
            sender: Sender::new(pushed),
            standby: Standby::new(alloc, limit),
            packets: Vec::new(alloc),
        }
    }

    /// Follows a line of a plan; or says why it can't.
    pub fn step(
        &mut self,
        alloc: Global,
        entries: &[PushedEntry<'_>],
        line: PlanLine,
    ) -> M<Option<MirrorStop>>
        ensures { IfOk result (λ stop. (limit : ℕ)
            → StepsTo limit (map entry_view entries.now) line self.old self.new stop) }
    {
        match line {
            PlanLine::Send(at) => self.send(at),
            PlanLine::Deliver(number) => self.deliver(alloc, entries, number),
        }
    }

    fn send(&mut self, at: u64) -> M<Option<MirrorStop>>
        ensures { IfOk result (λ stop. (limit : ℕ) (entries : List Entry)
            → StepsTo limit entries (PlanLine.Send at) self.old self.new stop) }
    {
        if let Some(place) = self.sender.offer(at) {
            self.packets.push(Packet::Pushes(place))?;
        }
        Ok(None)
    }

    // The packet of this number arrives.
    fn deliver(
        &mut self,
        alloc: Global,
        entries: &[PushedEntry<'_>],
        number: u64,
    ) -> M<Option<MirrorStop>>
        ensures { IfOk result (λ stop. (limit : ℕ)
            → StepsTo limit (map entry_view entries.now) (PlanLine.Deliver number) self.old self.new stop) }
    {
        match packet_at(&self.packets, number) {
            Some(Packet::Pushes(place)) => self.arrive(alloc, entries, place),
            Some(Packet::Acknowledges(applied)) => {
                self.sender.ack(applied);
                Ok(None)
            }
            None => Ok(Some(MirrorStop::NotSent)),
        }
    }

    // The entry of this place arrives at the standby, which tells how many it applied.
    fn arrive(
        &mut self,
        alloc: Global,
        entries: &[PushedEntry<'_>],
        place: usize,
    ) -> M<Option<MirrorStop>>
        ensures { IfOk result (λ stop. (limit : ℕ)
            → Arrives limit (map entry_view entries.now) place self.old self.new stop) }
    {
        let Some(entry) = entries.get(place) else {
            return self.acknowledge();
        };
        let taken = self.standby.take(alloc, place, entry)?;
        if taken.is_other() {
            return Ok(Some(MirrorStop::Differs(place + 1)));
        }
        self.acknowledge()
    }

    // The standby tells how many entries it applied.
    fn acknowledge(&mut self) -> M<Option<MirrorStop>>
        ensures stop { IfOk result (λ stop. stop ≡ None) }
        ensures told { OnOk result (ToldBy self.old self.new) }
    {
        let applied = self.standby.applied;
        self.packets.push(Packet::Acknowledges(applied))?;
        Ok(None)
    }
}

fn packet_at(packets: &[Packet], number: u64) -> Option<Packet>
    ensures { result ≡ packet_at packets.now number }
{
    let place = number.checked_sub(1)?;
    if place < packets.len() as u64 {
        Some(packets[place as usize])
    } else {
        None
    }
}
