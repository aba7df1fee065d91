// The loop's questions, and what an event does.

ghost use Rattle.std.specs.Prelude.{◌≡◌, ◌≤◌, ◌<◌, ◌++◌, List, None, true, IsTrue};
ghost use Rattle.core_events.specs.declared.note.Note.{Note};
ghost use Rattle.core_events.specs.Kinds.{kind_of};
ghost use Rattle.proxy_core.specs.Face.{Always, Moved, Stands, always_taken, core_face};
ghost use Rattle.proxy_core.specs.Refusal.{refused};

use crate::core_state::Core;
use core_events::{EdgeState, Event, EventCore, Notes};
use frame_machine::Stepper;
use px_bytes::{Addr, Side, Steps};
use std::marker::Brand;
use std::sync::ledger::{Blank, Ledger};

impl EventCore for Core {
    ghost face = { core_face };

    fn step(&mut self, event: Event, notes: &mut Notes) -> bool {
        counted::<Brand>(self, event, notes, Blank::new(1))
    }

    fn next(&self) -> Option<u32> {
        if self.live() >= self.limit() {
            return None;
        }
        let last = self.last();
        if last == u32::MAX {
            return None;
        }
        Some(last + 1)
    }

    fn live(&self) -> u32 {
        self.live()
    }

    fn name(&self, slot: u32) -> Option<&[u8]> {
        match self.listens().get(slot as usize) {
            Some(server) => Some(server.name.as_bytes()),
            None => None,
        }
    }

    fn slots(&self) -> u32 {
        u32::try_from(self.listens().len()).unwrap_or(u32::MAX)
    }

    fn listen(&self, slot: u32) -> Option<Addr> {
        match self.listens().get(slot as usize) {
            Some(server) => Some(server.listen),
            None => None,
        }
    }

    fn wants(&self, conn: u32, side: Side) -> usize {
        let Some(edges) = self.edges(conn) else {
            return 0;
        };
        if !edges.of(side).may_send() {
            return 0;
        }
        match self.wants(conn, side) {
            Some(n) => n,
            None => 0,
        }
    }

    fn connecting(&self, conn: u32) -> bool {
        match self.edges(conn) {
            Some(edges) => matches!(edges.server.state, EdgeState::Connecting),
            None => false,
        }
    }

    fn front(&self, conn: u32, side: Side) -> &[u8] {
        let Some(edges) = self.edges(conn) else {
            return &[];
        };
        if !edges.of(side).may_take() {
            return &[];
        }
        match self.front(conn, side) {
            Some(bytes) => bytes,
            None => &[],
        }
    }

    fn settled(&self) -> bool {
        self.settled()
    }

    fn ready(&self) -> Option<u32> {
        self.next()
    }

    fn moment(&self) -> u64 {
        self.moment()
    }

    fn due(&self) -> u64 {
        match self.next_due() {
            Some(moment) => moment,
            None => u64::MAX,
        }
    }

    ghost always = { always_taken };
}

// Gives an event, by steps that this ledger counts.
fn counted<L: Ledger>(core: &mut Core, event: Event, notes: &mut Notes, blank: Blank) -> bool
    requires spare { 68 ≤ notes.old.spare }
    requires name { blank.name ≡ L.name }
    requires parts { blank.parts ≡ L.parts }
    requires some { 0 < blank.parts }
    ensures taken { Stands core.old
        → Always core.old (λ C past s. refused C past s (kind_of event) ≡ None) → result ≡ true }
    ensures moved { IsTrue result → ((group : List Note)
        × (notes.new.items ≡ notes.old.items ++ group)
        × Moved core.old core.new (record { event = event; group = group })) }
    ensures stands { Stands core.old → Stands core.new }
{
    let mut steps = Steps::<L>::new(blank);
    match core.step::<Stepper, L>(event, &mut steps, notes) {
        Ok(()) => true,
        Err(_) => false,
    }
}
