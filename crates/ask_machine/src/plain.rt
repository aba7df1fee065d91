// Bodies by the plain evaluator.

use crate::body::AskedBody;
use crate::echo::Echo;
use crate::outcome::{BodyEnd, plain_end, push_asks, push_end, push_hex, push_whole};
use plain_eval::{Plain, Replies, eval_plain};
use px_bytes::{M, TclFault, Text};
use std::alloc::Global;
use tcl_vars::Vars;

/// What a body came to: the fault that it leaves uncaught, what it sent, and the whole outcome.
#[derive(Drop)]
pub struct Plained {
    uncaught: Text,
    sent: Text,
    pub outcome: Text,
}

impl Plained {
    fn new(alloc: Global) -> Plained {
        Plained {
            uncaught: Text::empty(alloc),
            sent: Text::empty(alloc),
            outcome: Text::empty(alloc),
        }
    }

    // Runs a body on these replies, and tells what it came to.
    fn run(
        &mut self,
        alloc: Global,
        body: AskedBody<'_>,
        replies: &Replies,
        statics: &Vars,
        vars: &mut Vars,
        host: &mut Echo,
    ) -> M<()> {
        let (tree, procs, all) = (body.tree, body.procs, body.all_shared);
        let plain = eval_plain(
            alloc,
            tree,
            procs,
            Some(statics),
            vars,
            host,
            &all,
            replies,
            body.budget,
        )?;
        let told = self.tell(alloc, &plain);
        drop(plain);
        told?;
        self.sent.push(host.sent().as_bytes())?;
        push_whole(alloc, &mut self.outcome, body, host, vars)
    }

    fn tell(&mut self, alloc: Global, plain: &Plain) -> M<()> {
        match plain {
            Plain::Done { code, used: _ } => {
                push_uncaught(alloc, &mut self.uncaught, plain_end(code))?;
                push_end(alloc, &mut self.outcome, plain_end(code))
            }
            Plain::Waits { call } => push_asks(alloc, &mut self.outcome, call),
        }
    }

    /// Adds the uncaught fault and what was sent.
    pub fn push(&self, alloc: Global, out: &mut Text) -> M<()> {
        push_hex(alloc, out, b"", &self.uncaught)?;
        push_hex(alloc, out, b" ", &self.sent)
    }
}

/// What a body comes to on these replies.
pub fn plain(alloc: Global, body: AskedBody<'_>, replies: &Replies) -> M<Plained> {
    let statics = Vars::new(alloc);
    let mut vars = Vars::new(alloc);
    let mut host = Echo::new(alloc);
    let mut plained = Plained::new(alloc);
    let ran = plained.run(alloc, body, replies, &statics, &mut vars, &mut host);
    drop(statics);
    drop(vars);
    drop(host);
    match ran {
        Ok(()) => Ok(plained),
        Err(memory) => {
            drop(plained);
            Err(memory)
        }
    }
}

fn push_uncaught(alloc: Global, out: &mut Text, end: BodyEnd<'_>) -> M<()> {
    match end {
        BodyEnd::Raised(fault) => out.push(fault.text.as_bytes()),
        BodyEnd::Break => push_fault(out, TclFault::outside_loop(alloc, b"break")),
        BodyEnd::Continue => push_fault(out, TclFault::outside_loop(alloc, b"continue")),
        BodyEnd::Value(_) | BodyEnd::Return(_) => Ok(()),
    }
}

fn push_fault(out: &mut Text, fault: M<TclFault>) -> M<()> {
    let fault = fault?;
    let pushed = out.push(fault.text.as_bytes());
    drop(fault);
    pushed
}
