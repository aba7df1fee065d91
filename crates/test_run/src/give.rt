// An event is given to the core.

ghost use Rattle.std.specs.Prelude.{◌≡◌, IfOk, IsFalse, IsTrue, take};
ghost use Rattle.core_events.specs.Face.{took_event};
ghost use Rattle.test_run.specs.Stand.{Gives, Keeps, Refuses, RefusesTake, Takes, stand};

use crate::event_copy::copy_event;
use crate::run::TestRun;
use crate::told::add_notes;
use core_events::{Event, EventCore};
use px_bytes::{M, Side, Text};
use test_past::RunEntry;

impl<C: EventCore + Drop> TestRun<C> {
    /// Gives an event to the core, and keeps it with what its notes tell. Says whether it was taken.
    pub(crate) fn give(&mut self, event: Event) -> M<bool>
        ensures given { IfOk result (λ taken. IsTrue taken
            → Gives C.face event (stand self.old) (stand self.new)) }
        ensures refused { IfOk result (λ taken. IsFalse taken
            → Refuses C.face event (stand self.old) (stand self.new)) }
    {
        self.notes.clear();
        self.notes.reserve(68)?;
        self.entries.push(RunEntry::Given(copy_event(&event)?))?;
        if !self.core.step(event, &mut self.notes) {
            return Ok(false);
        }
        add_notes(self.alloc, &mut self.entries, self.notes.as_slice())?;
        Ok(true)
    }

    // A side takes the first bytes that are pending to it, so many, which are kept first.
    fn keep_taken(&mut self, side: Side, conn: u32, n: usize) -> M<()>
        ensures { IfOk result (λ _. Keeps C.face side conn n (stand self.old) (stand self.new)) }
    {
        let pending = self.core.front(conn, side);
        let bytes = Text::new(self.alloc, pending.get(..n).unwrap_or(pending))?;
        self.entries.push(RunEntry::Took { conn, side, bytes })
    }

    /// A side takes the first bytes that are pending to it, so many.
    pub(crate) fn take(&mut self, side: Side, conn: u32, n: usize) -> M<bool>
        ensures taken { IfOk result (λ taken. IsTrue taken
            → Takes C.face side conn n (stand self.old) (stand self.new)) }
        ensures refused { IfOk result (λ taken. IsFalse taken
            → RefusesTake C.face side conn n (stand self.old) (stand self.new)) }
    {
        self.keep_taken(side, conn, n)?;
        self.give(took_event(side, conn, n))
    }
}

fn took_event(side: Side, conn: u32, n: usize) -> Event
    ensures { result ≡ took_event side conn n }
{
    match side {
        Side::Client => Event::ClientTook { conn, n },
        Side::Server => Event::ServerTook { conn, n },
    }
}
