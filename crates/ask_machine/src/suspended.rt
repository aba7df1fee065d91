// A body as a connection keeps it from one Run to the next.

ghost use Rattle.std.specs.Prelude.{◌<◌, ◌≡◌};

use crate::echo::Echo;
use crate::outcome::{end_of, push_asks, push_end, push_hex};
use conn::{Handler, RunningBody};
use frame_machine::Stepper;
use frames::Turn;
use px_bytes::{M, Reply, Steps, Text};
use std::alloc::Global;
use std::marker::Brand;
use std::sync::ledger::{Blank, Ledger};
use tcl_vars::Vars;

/// A slice goes on while it counted no more steps.
const MOST_STEPS: u64 = 1_990;

/// More slices than a body of that budget can have.
const MOST_SLICES: u32 = 4_000;

/// A body with the variables and the host of its connection.
#[derive(Drop)]
struct Suspended<'a> {
    handler: Handler<'a>,
    body: RunningBody,
    statics: Vars,
    vars: Vars,
    host: Echo,
}

impl<'a> Suspended<'a> {
    fn new(alloc: Global, handler: Handler<'a>, budget: u32) -> Suspended<'a> {
        let mut body = RunningBody::new(alloc);
        body.begin(budget);
        Suspended {
            handler,
            body,
            statics: Vars::new(alloc),
            vars: Vars::new(alloc),
            host: Echo::new(alloc),
        }
    }

    // Goes on until it asks, ends, or counted more than 1,990 steps.
    fn slice<L: Ledger>(&mut self, alloc: Global, steps: &mut Steps<L>) -> M<Turn> {
        let mut spent = 0;
        for _ in 0..MOST_STEPS + 1 {
            if spent > MOST_STEPS {
                return Ok(Turn::More);
            }
            match self.step(alloc, steps, &mut spent)? {
                Turn::More => {}
                turn => return Ok(turn),
            }
        }
        Ok(Turn::More)
    }

    fn step<L: Ledger>(&mut self, alloc: Global, steps: &mut Steps<L>, spent: &mut u64) -> M<Turn>
        requires { spent.old < 2000 }
    {
        let (vars, host) = (&mut self.vars, &mut self.host);
        let (handler, statics) = (&self.handler, &self.statics);
        self.body
            .step::<Stepper, Echo, L>(alloc, handler, statics, vars, host, &false, steps, spent)
    }

    // Goes on slice by slice while replies are left, and writes what each came to, and what was sent.
    fn run<L: Ledger>(
        &mut self,
        alloc: Global,
        replies: &[Reply],
        out: &mut Text,
        steps: &mut Steps<L>,
    ) -> M<()> {
        let mut left = replies;
        for _ in 0..MOST_SLICES {
            let turn = self.slice(alloc, steps)?;
            match self.tell(alloc, turn, left, out)? {
                Some(more) => left = more,
                None => return push_hex(alloc, out, b" sent ", self.host.sent()),
            }
        }
        out.push(b"unfinished")
    }

    // What a slice came to, and the replies that are left; none where the body goes no further.
    fn tell<'r>(
        &mut self,
        alloc: Global,
        turn: Turn,
        left: &'r [Reply],
        out: &mut Text,
    ) -> M<Option<&'r [Reply]>> {
        match turn {
            Turn::More => Ok(Some(left)),
            Turn::Asks(call) => {
                let pushed = push_asks(alloc, out, &call);
                drop(call);
                pushed?;
                self.answer(left, out)
            }
            Turn::Done(code) => {
                let pushed = push_end(alloc, out, end_of(&code));
                drop(code);
                pushed?;
                Ok(None)
            }
        }
    }

    fn answer<'r>(&mut self, left: &'r [Reply], out: &mut Text) -> M<Option<&'r [Reply]>> {
        let Some((reply, more)) = left.split_first() else {
            return Ok(None);
        };
        out.push(b"; ")?;
        self.body.resume(reply)?;
        Ok(Some(more))
    }
}

/// What a body comes to on these replies, and what it sent: each call stops it, and its reply lets it go on.
pub fn run_suspended(
    alloc: Global,
    handler: Handler<'_>,
    budget: u32,
    replies: &[Reply],
    out: &mut Text,
) -> M<()> {
    let mut body = Suspended::new(alloc, handler, budget);
    let ran = run_counted::<Brand>(alloc, &mut body, replies, out, Blank::new(1));
    drop(body);
    ran
}

fn run_counted<L: Ledger>(
    alloc: Global,
    body: &mut Suspended<'_>,
    replies: &[Reply],
    out: &mut Text,
    blank: Blank,
) -> M<()>
    requires name { blank.name ≡ L.name }
    requires parts { blank.parts ≡ L.parts }
    requires some { 0 < blank.parts }
{
    let mut steps = Steps::<L>::new(blank);
    body.run(alloc, replies, out, &mut steps)
}
