// What can go on does, until all is at rest.

ghost use Rattle.std.specs.Prelude.{◌≡◌, IfOk, IsFalse, IsTrue};
ghost use Rattle.test_run.specs.Due.{Answering, DoesDue, RefusesAnswer, RefusesDue, RestEnds};
ghost use Rattle.test_run.specs.Due.{made_if};
ghost use Rattle.test_run.specs.Stand.{stand, with_entry};

use crate::due::Due;
use crate::run::TestRun;
use core_events::{Event, EventCore};
use px_bytes::M;
use test_past::RunEntry;

/// The most events of one rest.
const MOST_EVENTS: usize = 1_048_576;

/// How a move went.
#[derive(Clone, Copy, PartialEq, Eq)]
pub(crate) enum MoveEnd {
    Made,
    /// An event was refused.
    Refused,
    /// It went on for too long.
    Restless,
}

pub(crate) fn made_if(taken: bool) -> MoveEnd
    ensures { result ≡ made_if taken }
{
    if taken {
        MoveEnd::Made
    } else {
        MoveEnd::Refused
    }
}

impl<C: EventCore + Drop> TestRun<C> {
    fn answer_conn(&mut self, conn: u32, made: bool) -> M<bool>
        ensures answers { IfOk result (λ taken. IsTrue taken
            → Answering C.face conn made (stand self.old) (stand self.new)) }
        ensures refused { IfOk result (λ taken. IsFalse taken
            → RefusesAnswer C.face conn made (stand self.old) (stand self.new)) }
    {
        if made {
            self.give(Event::Connected { conn })
        } else {
            self.give(Event::Refused { conn })
        }
    }

    fn do_due(&mut self, due: Due) -> M<bool>
        ensures does { IfOk result (λ taken. IsTrue taken
            → DoesDue C.face due (stand self.old) (stand self.new)) }
        ensures refused { IfOk result (λ taken. IsFalse taken
            → RefusesDue C.face due (stand self.old) (stand self.new)) }
    {
        match due {
            Due::Runs => self.give(Event::Run),
            Due::Turns => self.give(Event::Turn),
            Due::Answers { conn, made } => self.answer_conn(conn, made),
            Due::Takes { side, conn, n } => self.take(side, conn, n),
        }
    }

    // Does what is due, until nothing is.
    fn go(&mut self) -> M<MoveEnd>
        ensures { IfOk result
            (λ end. RestEnds C.face end (stand self.old) (stand self.new)) }
    {
        for _ in 0..MOST_EVENTS {
            let Some(due) = self.due() else {
                return Ok(MoveEnd::Made);
            };
            if !self.do_due(due)? {
                return Ok(MoveEnd::Refused);
            }
        }
        Ok(MoveEnd::Restless)
    }

    /// What can go on does, until all is at rest.
    pub(crate) fn rest(&mut self) -> M<MoveEnd>
        ensures { IfOk result (λ end. RestEnds C.face end
            (with_entry RunEntry.Rests (stand self.old)) (stand self.new)) }
    {
        self.entries.push(RunEntry::Rests)?;
        self.go()
    }
}
