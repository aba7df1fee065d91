// A body goes on, begins or ends.

ghost use Rattle.std.specs.Prelude.{◌≡◌, ◌+◌, ◌-◌, ◌<◌, ◌≤◌, length, IfOk, OnErr, OnOk};
ghost use Rattle.conn.specs.Setups.{handler_of, places_at};
ghost use Rattle.conn.specs.Stages.{entered_stage};
ghost use Rattle.conn.specs.Changes.{NextBody, StartsBody};
ghost use Rattle.conn.specs.Steps.{BodyMoved, GoesOn, said_of};

use crate::connection::Conn;
use crate::ends::Link;
use crate::events::At;
use crate::host::RuleHost;
use crate::setup::{Handler, Setup};
use crate::stage::Stage;
use crate::turn::Act;
use crate::uncaught::uncaught;
use conn_trace::uncaught_line;
use core_events::Notes;
use frames::{Moves, Turn};
use px_bytes::{FaultKind, M, Steps, Text, Texts};
use std::alloc::Global;
use std::sync::ledger::Ledger;

impl Setup<'_> {
    /// Where a connection stands that enters an event.
    pub(crate) fn enter(&self, at: At, link: Link, host: &RuleHost) -> Stage
        ensures { result ≡ entered_stage self.now at link host.now }
    {
        if self.places(at).is_empty() {
            return Stage::after(at, link, host);
        }
        Stage::Gated { at }
    }
}

impl Conn {
    /// The body of this number begins, or the event is over.
    pub(crate) fn next_body(&mut self, setup: &Setup<'_>, at: At, number: usize)
        ensures { NextBody setup.now at number self.old self.new }
    {
        if number < setup.places(at).len() {
            self.start_body(setup, at, number);
        } else {
            self.leave(setup, at);
        }
    }

    /// The body of this number begins.
    pub(crate) fn start_body(&mut self, setup: &Setup<'_>, at: At, number: usize)
        ensures { StartsBody setup.now at number self.old self.new }
    {
        self.stage = Stage::Running { at, number };
        self.body.begin(setup.budget);
    }

    /// The body goes on by one step, and what its command made is done. Where memory is refused nothing
    /// is noted.
    pub(crate) fn step_body<S: Moves, L: Ledger>(
        &mut self,
        alloc: Global,
        setup: &Setup<'_>,
        number: u32,
        at: At,
        body: usize,
        steps: &mut Steps<L>,
        spent: &mut u64,
        notes: &mut Notes,
    ) -> M<Act>
        requires room { 1 ≤ notes.old.spare }
        requires spent { spent.old < 2000 }
        ensures moved { IfOk result (λ act.
            BodyMoved setup.now number at body self.old self.new notes.old.items notes.new.items act
            (steps.new - steps.old)) }
        ensures err { OnErr result (notes.new ≡ notes.old) }
        ensures kept { OnErr result (self.new.ends.edges ≡ self.old.ends.edges) }
        ensures ticks { OnOk result (steps.old < steps.new) }
        ensures few { steps.new ≤ steps.old + 10 }
        ensures counted { OnOk result (spent.new + steps.old ≡ spent.old + steps.new) }
        ensures spare { notes.old.spare ≤ notes.new.spare + 1 }
        ensures grows { length notes.old.items ≤ length notes.new.items }
        ensures room { notes.new.spare + length notes.new.items
            ≡ notes.old.spare + length notes.old.items }
    {
        let Some(handler) = setup.body(at, body) else {
            steps.tick();
            *spent += 1;
            return Ok(Act::Rests);
        };
        self.host.clear();
        let turn = self.body.step::<S, RuleHost, L>(
            alloc,
            &handler,
            setup.statics,
            &mut self.vars,
            &mut self.host,
            setup.groups,
            steps,
            spent,
        )?;
        let said = said_of(alloc, &handler, at, turn)?;
        self.do_made(number, notes)?;
        Ok(self.go_on(setup, at, body, said))
    }

    // What the step said decides.
    fn go_on(&mut self, setup: &Setup<'_>, at: At, body: usize, said: Said) -> Act
        requires { body < length (places_at setup.now at) }
        ensures { GoesOn setup.now at body said self.old self.new result }
    {
        let _places = setup.places(at).len();
        match said {
            Said::More => Act::Goes,
            Said::Asks(call) => {
                self.stage = Stage::Asking { at, number: body };
                Act::Asks(call)
            }
            Said::Over => {
                self.next_body(setup, at, body + 1);
                Act::Goes
            }
            Said::Fails(kind, line) => {
                self.stage = Stage::Failing {
                    at,
                    next: body + 1,
                    kind,
                    line,
                };
                Act::Goes
            }
        }
    }
}

/// What a step of a body said, with the line of a fault that it left uncaught.
#[derive(Drop)]
pub(crate) enum Said {
    More,
    Asks(Texts),
    Over,
    Fails(FaultKind, Text),
}

fn said_of(alloc: Global, handler: &Handler<'_>, at: At, turn: Turn) -> M<Said>
    ensures { IfOk result (λ said. said ≡ said_of (handler_of handler.now) at turn) }
{
    let code = match turn {
        Turn::More => return Ok(Said::More),
        Turn::Asks(call) => return Ok(Said::Asks(call)),
        Turn::Done(code) => code,
    };
    let Some(fault) = uncaught(alloc, code)? else {
        return Ok(Said::Over);
    };
    let line = uncaught_line(alloc, handler.name, at.name(), &fault.text)?;
    Ok(Said::Fails(fault.kind, line))
}
