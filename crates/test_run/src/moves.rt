// The moves of a run are made.

ghost use Rattle.std.specs.Prelude.{◌≡◌, IfOk, IsFalse, IsTrue, Some, option_map};
ghost use Rattle.test_run.specs.Moves.{DoesMove, DoesPiece, MoveEnds, RefusesMove, RefusesSending};
ghost use Rattle.test_run.specs.Moves.{RunEnds, deed_at, deed_in, is_dropped, sender_at};
ghost use Rattle.test_run.specs.Moves.{sender_of, step_of};
ghost use Rattle.test_run.specs.Stand.{stand};

use crate::deeds::from_event;
use crate::known::SendingText;
use crate::rest::{MoveEnd, made_if};
use crate::run::TestRun;
use core_events::EventCore;
use px_bytes::{M, Side, Text};
use test_past::{RunEnd, RunEntry, conn_of, finish_of};
use test_plan::TestMove;
use test_text::{Deed, PlacedStep, TestStep};

/// A side of a client that sends.
#[derive(Clone, Copy, PartialEq, Eq)]
pub struct SendingSide {
    pub side: Side,
    pub client: usize,
}

// The deed of a number in a step.
fn deed_in(step: &TestStep, at: usize) -> Option<&Deed>
    ensures { option_map (λ d. d.now) result ≡ deed_in step.now at }
{
    match step {
        TestStep::One(deed) => Some(deed),
        TestStep::Together(deeds) => Some(&deeds.get(at)?.deed),
        TestStep::Expect(_) => None,
    }
}

fn deed_at(steps: &[PlacedStep], step: usize, at: usize) -> Option<&Deed>
    ensures { option_map (λ d. d.now) result ≡ deed_at steps.now step at }
{
    match steps.get(step) {
        Some(placed) => deed_in(&placed.step, at),
        None => None,
    }
}

fn sender_of(deed: &Deed) -> Option<SendingSide>
    ensures { result ≡ sender_of deed.now }
{
    match deed {
        Deed::Does { side, client, .. } => Some(SendingSide {
            side: *side,
            client: *client,
        }),
        _ => None,
    }
}

// Who sends by a deed.
fn sender_at(steps: &[PlacedStep], step: usize, at: usize) -> Option<SendingSide>
    ensures { result ≡ sender_at steps.now step at }
{
    match deed_at(steps, step, at) {
        Some(deed) => sender_of(deed),
        None => None,
    }
}

// The step of a move, where it tells one.
fn step_of(one: &TestMove, before: usize) -> usize
    ensures { result ≡ step_of one.now before }
{
    match one {
        TestMove::Does { step, .. } => *step,
        TestMove::Sends { step, .. } => *step,
        TestMove::Rests => before,
        TestMove::Asks { step } => *step,
    }
}

impl<C: EventCore + Drop> TestRun<C> {
    // Whether a piece isn't given any more: one of its text was, and its connection finishes.
    fn is_dropped(&self, sending: SendingText, conn: u32) -> bool
        ensures { result ≡ is_dropped sending conn (stand self.now) }
    {
        let Some(last) = self.known.sending else {
            return false;
        };
        last.step == sending.step
            && last.at == sending.at
            && finish_of(conn, self.entries.as_slice()).is_some()
    }

    // Gives a piece of a text.
    fn piece(&mut self, sending: SendingText, sender: SendingSide, bytes: &Text) -> M<bool>
        ensures does { IfOk result (λ taken. IsTrue taken
            → DoesPiece C.face sending sender bytes.now (stand self.old) (stand self.new)) }
        ensures refused { IfOk result (λ taken. IsFalse taken → RefusesSending C.face sending
            (Some sender) bytes.now (stand self.old) (stand self.new)) }
    {
        let Some(conn) = conn_of(sender.client, self.known.came.as_slice()) else {
            return Ok(false);
        };
        if self.is_dropped(sending, conn) {
            return Ok(true);
        }
        let bytes = bytes.copy()?;
        self.known.sending = Some(sending);
        self.give(from_event(sender.side, conn, bytes))
    }

    fn send(&mut self, steps: &[PlacedStep], step: usize, at: usize, bytes: &Text) -> M<bool>
        ensures does { IfOk result (λ taken. IsTrue taken → DoesMove C.face steps.now
            (TestMove.Sends step at bytes.now) (stand self.old) (stand self.new)) }
        ensures refused { IfOk result (λ taken. IsFalse taken → RefusesMove C.face steps.now
            (TestMove.Sends step at bytes.now) (stand self.old) (stand self.new)) }
    {
        match sender_at(steps, step, at) {
            Some(sender) => self.piece(SendingText { step, at }, sender, bytes),
            None => Ok(false),
        }
    }

    fn do_at(&mut self, steps: &[PlacedStep], step: usize, at: usize) -> M<bool>
        ensures does { IfOk result (λ taken. IsTrue taken → DoesMove C.face steps.now
            (TestMove.Does step at) (stand self.old) (stand self.new)) }
        ensures refused { IfOk result (λ taken. IsFalse taken → RefusesMove C.face steps.now
            (TestMove.Does step at) (stand self.old) (stand self.new)) }
    {
        match deed_at(steps, step, at) {
            Some(deed) => self.do_deed(deed),
            None => Ok(false),
        }
    }

    fn make(&mut self, steps: &[PlacedStep], one: &TestMove) -> M<MoveEnd>
        ensures { IfOk result (λ end. MoveEnds C.face steps.now one.now end
            (stand self.old) (stand self.new)) }
    {
        match one {
            TestMove::Does { step, at } => Ok(made_if(self.do_at(steps, *step, *at)?)),
            TestMove::Sends { step, at, bytes } => {
                Ok(made_if(self.send(steps, *step, *at, bytes)?))
            }
            TestMove::Rests => self.rest(),
            TestMove::Asks { step } => {
                self.entries.push(RunEntry::Asks { step: *step })?;
                Ok(MoveEnd::Made)
            }
        }
    }

    /// Makes the moves, one behind the other, and says how that ended.
    pub fn follow(&mut self, steps: &[PlacedStep], moves: &[TestMove]) -> M<RunEnd>
        ensures { IfOk result (λ end. RunEnds C.face steps.now moves.now end
            (stand self.old) (stand self.new)) }
    {
        let mut step = 0;
        for one in moves {
            step = step_of(one, step);
            match self.make(steps, one)? {
                MoveEnd::Made => {}
                MoveEnd::Refused => return Ok(RunEnd::Refused { step }),
                MoveEnd::Restless => return Ok(RunEnd::Restless { step }),
            }
        }
        Ok(RunEnd::Done)
    }
}
