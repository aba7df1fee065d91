// Bodies by steps.

ghost use Rattle.std.specs.Prelude.{IfOk, IfSome, ◌<◌, ◌≡◌};
ghost use Rattle.frames.specs.Went.{IsAsked, IsRunning, TurnIs};

use crate::body::AskedBody;
use crate::echo::Echo;
use crate::outcome::{end_of, push_asks, push_end, push_whole};
use crate::run::Run;
use frame_machine::Stepper;
use frames::{Machine, Moves, Turn};
use px_bytes::{M, Reply, Steps, Text, Texts};
use std::alloc::Global;
use std::marker::Brand;
use std::sync::ledger::{Blank, Ledger};
use tcl_vars::Vars;

/// More steps than a body of that budget can have.
const MOST: u32 = 4_000_000;

/// A body that runs by steps: the machine, the static variables, which are only read, the others, the host, the
/// ticks that its steps told, and whether each told one to ten.
#[derive(Drop)]
struct Runner<'a> {
    body: AskedBody<'a>,
    machine: Machine,
    statics: Vars,
    vars: Vars,
    host: Echo,
    ticks: u64,
    is_few: bool,
}

impl<'a> Runner<'a> {
    fn new(alloc: Global, body: AskedBody<'a>) -> Runner<'a>
        ensures { IsRunning result.machine.at.mode }
    {
        Runner {
            body,
            machine: Machine::start(alloc, body.budget),
            statics: Vars::new(alloc),
            vars: Vars::new(alloc),
            host: Echo::new(alloc),
            ticks: 0,
            is_few: true,
        }
    }

    // A slice of so many steps.
    fn slice<L: Ledger>(&mut self, alloc: Global, most: u32, steps: &mut Steps<L>) -> M<Turn>
        requires { IsRunning self.old.machine.at.mode }
        ensures { IfOk result (λ turn. TurnIs turn self.new.machine.at) }
    {
        for _ in 0..most {
            match self.step(alloc, steps)? {
                Turn::More => {}
                turn => return Ok(turn),
            }
        }
        Ok(Turn::More)
    }

    fn step<L: Ledger>(&mut self, alloc: Global, steps: &mut Steps<L>) -> M<Turn>
        requires { IsRunning self.old.machine.at.mode }
        ensures { IfOk result (λ turn. TurnIs turn self.new.machine.at) }
    {
        let (tree, procs, all) = (self.body.tree, self.body.procs, self.body.all_shared);
        let (statics, vars, host) = (Some(&self.statics), &mut self.vars, &mut self.host);
        let machine = &mut self.machine;
        let turn = Stepper::step(
            machine, alloc, tree, procs, statics, vars, host, &all, steps,
        )?;
        self.count();
        Ok(turn)
    }

    // Notes what the last step ticked.
    fn count(&mut self)
        ensures { self.new.machine ≡ self.old.machine }
    {
        let ticked = self.machine.ticked();
        self.ticks = self.ticks.saturating_add(ticked);
        self.is_few = self.is_few && ticked > 0 && ticked <= 10;
    }

    // Goes on slice by slice while replies are left, and notes what each came to.
    fn run<L: Ledger>(
        &mut self,
        alloc: Global,
        replies: GivenReplies<'_>,
        slice: u32,
        run: &mut Run,
        steps: &mut Steps<L>,
    ) -> M<()>
        requires { IsRunning self.old.machine.at.mode }
    {
        let mut left = replies;
        for _ in 0..MOST {
            let turn = self.slice(alloc, slice, steps)?;
            match self.tell(alloc, turn, left, run, steps.count())? {
                Some(more) => left = more,
                None => return Ok(()),
            }
        }
        run.outcome.push(b"unfinished")
    }

    // What a slice came to, and the replies that are left; none where the body goes no further.
    fn tell<'r>(
        &mut self,
        alloc: Global,
        turn: Turn,
        left: GivenReplies<'r>,
        run: &mut Run,
        counted: u64,
    ) -> M<Option<GivenReplies<'r>>>
        requires { TurnIs turn self.old.machine.at }
        ensures { IfOk result (λ r. IfSome r (λ _. IsRunning self.new.machine.at.mode)) }
    {
        match turn {
            Turn::More => Ok(Some(left)),
            Turn::Done(code) => {
                let pushed = push_end(alloc, &mut run.end, end_of(&code));
                drop(code);
                pushed?;
                self.end(alloc, run, counted)?;
                Ok(None)
            }
            Turn::Asks(call) => {
                let told = self.answer(alloc, &call, left, run, counted);
                drop(call);
                told
            }
        }
    }

    // A call gets the next reply, or an empty one; where none is left it is the body's end.
    fn answer<'r>(
        &mut self,
        alloc: Global,
        call: &Texts,
        left: GivenReplies<'r>,
        run: &mut Run,
        counted: u64,
    ) -> M<Option<GivenReplies<'r>>>
        requires { IsAsked self.old.machine.at.mode }
        ensures { IfOk result (λ r. IfSome r (λ _. IsRunning self.new.machine.at.mode)) }
    {
        if let Some((reply, more)) = left.replies.split_first() {
            self.note(alloc, call, run)?;
            self.machine.resume(reply)?;
            return Ok(Some(GivenReplies {
                replies: more,
                ..left
            }));
        }
        if run.asked < left.empty {
            self.note(alloc, call, run)?;
            self.resume_empty(alloc)?;
            return Ok(Some(left));
        }
        push_asks(alloc, &mut run.end, call)?;
        self.end(alloc, run, counted)?;
        Ok(None)
    }

    fn resume_empty(&mut self, alloc: Global) -> M<()>
        requires { IsAsked self.old.machine.at.mode }
        ensures { IfOk result (λ _. IsRunning self.new.machine.at.mode) }
    {
        let empty = Reply::Ok(Text::empty(alloc));
        let resumed = self.machine.resume(&empty);
        drop(empty);
        resumed
    }

    // Notes a call that is asked, with its path.
    fn note(&self, alloc: Global, call: &Texts, run: &mut Run) -> M<()> {
        let mut path = vec![in alloc; 0; self.machine.depth()]?;
        self.machine.stopped_at(&mut path);
        let noted = run.note(alloc, &path, call);
        drop(path);
        noted
    }

    // Notes what the body came to, where the ticks that steps told are those that were counted.
    fn end(&self, alloc: Global, run: &mut Run, counted: u64) -> M<()> {
        if !self.is_few || self.ticks != counted {
            return run.outcome.push(b"miscounted");
        }
        run.outcome.push(run.end.as_bytes())?;
        push_whole(alloc, &mut run.outcome, self.body, &self.host, &self.vars)
    }
}

/// The replies that are left, and how many calls may have one, behind which each gets the empty one.
#[derive(Clone, Copy)]
pub struct GivenReplies<'r> {
    pub replies: &'r [Reply],
    pub empty: u32,
}

/// What a body comes to on these replies, and on so many empty ones behind them, in slices.
pub fn stepped(
    alloc: Global,
    body: AskedBody<'_>,
    replies: GivenReplies<'_>,
    slice: u32,
) -> M<Run> {
    let mut runner = Runner::new(alloc, body);
    let mut run = Run::new(alloc);
    let ran = run_counted::<Brand>(alloc, &mut runner, replies, slice, &mut run, Blank::new(1));
    drop(runner);
    match ran {
        Ok(()) => Ok(run),
        Err(memory) => {
            drop(run);
            Err(memory)
        }
    }
}

fn run_counted<L: Ledger>(
    alloc: Global,
    runner: &mut Runner<'_>,
    replies: GivenReplies<'_>,
    slice: u32,
    run: &mut Run,
    blank: Blank,
) -> M<()>
    requires name { blank.name ≡ L.name }
    requires parts { blank.parts ≡ L.parts }
    requires some { 0 < blank.parts }
    requires running { IsRunning runner.old.machine.at.mode }
{
    let mut steps = Steps::<L>::new(blank);
    runner.run(alloc, replies, slice, run, &mut steps)
}
