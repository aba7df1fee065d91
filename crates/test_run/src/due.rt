// What is due of a core and its peers by themselves.

ghost use Rattle.std.specs.Prelude.{◌≡◌, IfNone, IfSome};
ghost use Rattle.std.specs.List.{All};
ghost use Rattle.test_run.specs.Due.{AnswersNone, Answers, InsideDue, IsAtRest, IsDue};
ghost use Rattle.test_run.specs.Due.{Pending, TakesNone, answer_by, left_behind, left_from};
ghost use Rattle.test_run.specs.Due.{take_count};
ghost use Rattle.test_run.specs.Known.{answer_of};
ghost use Rattle.test_run.specs.Stand.{stand};

use crate::known::{amount_of, meeting_of};
use crate::run::TestRun;
use core_events::EventCore;
use px_bytes::{Addr, Side};
use test_past::{ClientConn, RunEntry, asked_by, same_side};
use test_text::Meeting;

/// What goes on by itself.
#[derive(Clone, Copy)]
pub enum Due {
    /// The connection that is ready for the longest time goes on.
    Runs,
    /// A shared call is answered.
    Turns,
    /// A server answers whether it takes a connection.
    Answers { conn: u32, made: bool },
    /// A side takes the first bytes that are pending to it, so many.
    Takes { side: Side, conn: u32, n: usize },
}

// The answer to a connect; none, where the server waits.
fn answer_of(meeting: Meeting) -> Option<bool>
    ensures { result ≡ answer_of meeting }
{
    match meeting {
        Meeting::Connects => Some(true),
        Meeting::Refuses => Some(false),
        Meeting::Waits => None,
    }
}

// How many bytes a side may take yet behind this step, behind an entry.
fn left_behind(side: Side, conn: u32, most: u64, entry: &RunEntry, left: u64) -> u64
    ensures { result ≡ left_behind side conn most entry.now left }
{
    match entry {
        RunEntry::Rests => most,
        RunEntry::Took {
            conn: of,
            side: whose,
            bytes,
        } => {
            if *of == conn && same_side(*whose, side) {
                left.saturating_sub(bytes.len() as u64)
            } else {
                left
            }
        }
        _ => left,
    }
}

fn left_of(side: Side, conn: u32, most: u64, entries: &[RunEntry]) -> u64
    ensures { result ≡ left_from side conn most most entries.now }
{
    let mut left = most;
    for entry in entries {
        left = left_behind(side, conn, most, entry, left);
    }
    left
}

// How many of so many bytes a side takes, of which it takes at most some behind a step.
fn take_count(
    most: Option<u64>,
    side: Side,
    conn: u32,
    entries: &[RunEntry],
    pending: usize,
) -> usize
    ensures { result ≡ take_count most side conn entries.now pending }
{
    match most {
        None => pending,
        Some(most) => pending.min(left_of(side, conn, most, entries) as usize),
    }
}

impl<C: EventCore + Drop> TestRun<C> {
    /// What is due next by itself; None where all is at rest.
    pub(crate) fn due(&self) -> Option<Due>
        ensures some { IfSome result (IsDue C.face (stand self.now)) }
        ensures none { IfNone result (IsAtRest C.face (stand self.now)) }
    {
        if !self.core.settled() {
            return Some(self.due_inside());
        }
        match self.due_answer() {
            Some(due) => Some(due),
            None => self.due_take(),
        }
    }

    // What a core does that isn't settled.
    fn due_inside(&self) -> Due
        ensures { InsideDue C.face (stand self.now) result }
    {
        match self.core.ready() {
            Some(_) => Due::Runs,
            None => Due::Turns,
        }
    }

    // The first answer of a server that is due.
    fn due_answer(&self) -> Option<Due>
        ensures some { IfSome result (IsDue C.face (stand self.now)) }
        ensures none { IfNone result
            (All (AnswersNone C.face (stand self.now)) (stand self.now).known.came) }
    {
        for one in self.known.came.as_slice() {
            if let Some(made) = self.answer(one.conn) {
                return Some(Due::Answers {
                    conn: one.conn,
                    made,
                });
            }
        }
        None
    }

    // How the server answers that was asked for a connection.
    fn answer(&self, conn: u32) -> Option<bool>
        ensures { Answers C.face (stand self.now) conn result }
    {
        if !self.core.connecting(conn) {
            return None;
        }
        self.answer_by(asked_by(conn, self.entries.as_slice()))
    }

    fn answer_by(&self, asked: Option<Addr>) -> Option<bool>
        ensures { result ≡ answer_by asked (stand self.now).known.meets }
    {
        match asked {
            None => None,
            Some(addr) => answer_of(meeting_of(addr, self.known.meets.as_slice())),
        }
    }

    // The first bytes that a side is to take.
    fn due_take(&self) -> Option<Due>
        ensures some { IfSome result (IsDue C.face (stand self.now)) }
        ensures none { IfNone result
            (All (TakesNone C.face (stand self.now)) (stand self.now).known.came) }
    {
        for one in self.known.came.as_slice() {
            if let Some(due) = self.take_of(*one) {
                return Some(due);
            }
        }
        None
    }

    fn take_of(&self, one: ClientConn) -> Option<Due>
        ensures some { IfSome result (IsDue C.face (stand self.now)) }
        ensures none { IfNone result (TakesNone C.face (stand self.now) one) }
    {
        match self.take_on(Side::Client, one) {
            Some(due) => Some(due),
            None => self.take_on(Side::Server, one),
        }
    }

    fn take_on(&self, side: Side, one: ClientConn) -> Option<Due>
        ensures some { IfSome result (IsDue C.face (stand self.now)) }
        ensures none { IfNone result (Pending C.face (stand self.now) side one 0) }
    {
        let n = self.count_on(side, one);
        if n == 0 {
            return None;
        }
        Some(Due::Takes {
            side,
            conn: one.conn,
            n,
        })
    }

    // How many bytes a side is to take.
    fn count_on(&self, side: Side, one: ClientConn) -> usize
        ensures { Pending C.face (stand self.now) side one result }
    {
        let pending = self.core.front(one.conn, side).len();
        let most = amount_of(side, one.client, self.known.amounts.as_slice());
        take_count(most, side, one.conn, self.entries.as_slice(), pending)
    }
}
