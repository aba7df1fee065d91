// What a net is taken through, step by step. A new net goes through each table.

use super::Went;
use super::descriptors::run_out;
use super::exchange::exchanges;
use super::many::names_go_over;
use super::side::{Tried, free_port};
use px_outside::{Net, ReadAnswer};

/// An end of the connection of a net to itself.
#[derive(Clone, Copy)]
enum End {
    Near,
    Far,
}

/// What is done with a net, and must go well.
#[derive(Clone, Copy)]
enum Step {
    /// It connects to itself.
    Joins,
    /// An end takes all of these bytes.
    Takes(End, &'static [u8]),
    /// This is the next answer other than NotYet to a read of 64 bytes at most of an end.
    Gives(End, ReadAnswer),
    /// The near end sends no more.
    Finishes,
    /// The far end is closed.
    Closes,
    Waits,
    /// A peer that closes with bytes unread is the far end.
    LosesAPeer,
    /// A connect is refused.
    IsRefused,
    /// A wait for nothing ends in its time.
    Rests,
    /// Two hundred connections to itself send names.
    NamesGoOver,
    /// Many bytes go both ways.
    Exchanges,
    /// Descriptors run out, and come back.
    RunsOut,
}

/// A step, and what is said where it does not go well.
type Row = (Step, &'static str);

/// Bytes and the end come before the wait, so one event tells of both; the other way is open still.
static ENDS: [Row; 7] = [
    (Step::Joins, "no connection"),
    (Step::Takes(End::Near, b"hello"), "hello is not taken"),
    (Step::Finishes, ""),
    (
        Step::Gives(End::Far, ReadAnswer::Got(5)),
        "hello does not come",
    ),
    (
        Step::Gives(End::Far, ReadAnswer::End),
        "no end comes behind hello",
    ),
    (Step::Takes(End::Far, b"back"), "an answer is not taken"),
    (
        Step::Gives(End::Near, ReadAnswer::Got(4)),
        "the answer does not come",
    ),
];

#[test]
fn an_end_comes_behind_the_last_bytes(rt: HostRuntime) -> Went {
    goes(&rt, &ENDS)
}

static RESETS: [Row; 2] = [
    (Step::LosesAPeer, "no peer takes bytes"),
    (Step::Gives(End::Far, ReadAnswer::Reset), "no reset comes"),
];

#[test]
fn a_peer_that_closes_with_unread_bytes_resets(rt: HostRuntime) -> Went {
    goes(&rt, &RESETS)
}

/// 936 bytes are unread, and more come after the close.
static LINGERS: [Row; 11] = [
    (Step::Joins, "no connection"),
    (
        Step::Takes(End::Near, &[b'q'; 1_000]),
        "a question is not taken",
    ),
    (
        Step::Gives(End::Far, ReadAnswer::Got(64)),
        "the question does not come",
    ),
    (
        Step::Takes(End::Far, b"too large"),
        "the answer is not taken",
    ),
    (Step::Closes, ""),
    (
        Step::Takes(End::Near, &[b'q'; 1_000]),
        "a question after the close is not taken",
    ),
    (Step::Waits, "the first wait fails"),
    (Step::Waits, "the second wait fails"),
    (Step::Waits, "the third wait fails"),
    (
        Step::Gives(End::Near, ReadAnswer::Got(9)),
        "the answer is lost",
    ),
    (
        Step::Gives(End::Near, ReadAnswer::End),
        "no end comes behind the answer",
    ),
];

#[test]
fn an_answer_survives_a_close_with_unread_bytes(rt: HostRuntime) -> Went {
    goes(&rt, &LINGERS)
}

static REFUSED: [Row; 2] = [
    (
        Step::IsRefused,
        "a port without a listener does not refuse, once and for all",
    ),
    (
        Step::Rests,
        "a wait for nothing lists something, or does not end in its time",
    ),
];

#[test]
fn a_port_without_a_listener_refuses(rt: HostRuntime) -> Went {
    goes(&rt, &REFUSED)
}

#[test]
fn two_hundred_links_at_once(rt: HostRuntime) -> Went {
    goes(&rt, &[(Step::NamesGoOver, "a name is lost")])
}

#[test]
fn exchanges_bytes_both_ways(rt: HostRuntime) -> Went {
    goes(
        &rt,
        &[(
            Step::Exchanges,
            "other bytes come, or not all, or no write was short",
        )],
    )
}

#[test]
fn descriptors_run_out(rt: HostRuntime) -> Went {
    goes(
        &rt,
        &[(
            Step::RunsOut,
            "a lack of descriptors is not told, or never ends",
        )],
    )
}

// The only function that owns a net.
fn goes(rt: &HostRuntime, steps: &[Row]) -> Went {
    match Tried::new(rt) {
        Some(mut tried) => tried.goes(rt, steps),
        None => Err("there is no net"),
    }
}

impl Tried {
    fn goes(&mut self, rt: &HostRuntime, steps: &[Row]) -> Went {
        for (step, otherwise) in steps {
            if !self.goes_well(rt, *step) || self.failed {
                return Err(otherwise);
            }
        }
        Ok(())
    }

    fn goes_well(&mut self, rt: &HostRuntime, step: Step) -> bool {
        match step {
            Step::Joins => self.joins(),
            Step::Takes(end, bytes) => self.takes(self.link(end), bytes),
            Step::Gives(end, answer) => self.read(self.link(end), &mut [0u8; 64]) == answer,
            Step::LosesAPeer => self.loses_a_peer(rt),
            Step::IsRefused => self.finds_nobody(rt),
            Step::Rests => self.rests(),
            Step::NamesGoOver => names_go_over(self),
            Step::Exchanges => exchanges(rt, self),
            Step::RunsOut => run_out(rt, self),
            Step::Finishes | Step::Closes | Step::Waits => self.is_done(step),
        }
    }

    fn finds_nobody(&mut self, rt: &HostRuntime) -> bool {
        match free_port(rt) {
            Ok(port) => self.is_refused(port),
            Err(_) => false,
        }
    }

    // What can't go wrong, but for a wait that fails.
    fn is_done(&mut self, step: Step) -> bool {
        match step {
            Step::Finishes => self.net.finish(self.near),
            Step::Closes => self.net.close(self.far),
            _ => self.wait(),
        }
        true
    }

    fn link(&self, end: End) -> u32 {
        match end {
            End::Near => self.near,
            End::Far => self.far,
        }
    }
}
