// The host of the bodies: it keeps what they send, and some of its commands are shared calls.

ghost use Rattle.std.specs.Prelude.{IfOk, List, MatchResult, codes, ℕ, ◌≡◌, ◌||◌, ◌&&◌};
ghost use Rattle.std.specs.Str.{bytes_eq};
ghost use Rattle.px_bytes.specs.Answered.{DidStep};
ghost use Rattle.rule_model.specs.Host.{Effect};
ghost use Rattle.ask_machine.specs.Echo.{commands, no_effect, sends};

use frames::Host;
use plain_eval::PlainHost;
use px_bytes::{HostAnswer, M, TclFault, Text, Texts};
use std::alloc::Global;
use std::marker::Model;

/// What bodies have sent.
#[derive(Drop)]
pub struct Echo {
    sent: Text,
}

impl Model for Echo {
    ghost Value = { List ℕ };

    ghost view = { λ e. e.sent };
}

impl Echo {
    /// Nothing was sent.
    pub fn new(alloc: Global) -> Echo {
        Echo {
            sent: Text::empty(alloc),
        }
    }

    /// What was sent.
    pub fn sent(&self) -> &Text {
        &self.sent
    }

    // `TCP::respond TEXT`.
    fn send(&mut self, alloc: Global, text: &Text) -> HostAnswer
        ensures { DidStep (sends self.old text.now) result self.new no_effect }
    {
        match self.sent.push(text.as_bytes()) {
            Ok(()) => HostAnswer::Value(Text::empty(alloc)),
            Err(_) => HostAnswer::Memory,
        }
    }

    // `table` is a shared call, and `TCP::respond` too where all are to be.
    fn answer(&mut self, alloc: Global, all: bool, words: &Texts) -> HostAnswer
        ensures { DidStep (commands all self.old words.now) result self.new no_effect }
    {
        match words.as_slice() {
            [name, ..] if is_shared(all, name) => asked(copied(alloc, words.as_slice())),
            [name, text] if is_respond(name) => self.send(alloc, text),
            [name, ..] if is_respond(name) => raised(TclFault::wrong_arity(alloc, name.as_bytes())),
            [name, ..] => raised(TclFault::no_command(alloc, name.as_bytes())),
            [] => raised(TclFault::no_command(alloc, b"")),
        }
    }
}

impl Host for Echo {
    ghost use Rattle.ask_machine.specs.Echo.{always, always_both, always_none};

    type Env = bool;

    ghost Seen = { List ℕ };

    ghost seen = { λ e. e };

    ghost made = { always };

    ghost table = { commands };

    fn call(&mut self, alloc: Global, env: &bool, words: &Texts) -> HostAnswer {
        self.answer(alloc, *env, words)
    }

    ghost made_none = { always_none };

    ghost made_both = { always_both };
}

impl PlainHost for Echo {
    type Env = bool;

    ghost table = { commands };

    fn call(&mut self, alloc: Global, env: &bool, words: &Texts) -> HostAnswer {
        self.answer(alloc, *env, words)
    }
}

fn is_shared(all: bool, name: &Text) -> bool
    ensures { result ≡ (bytes_eq name.now (codes "table")
        || (all && bytes_eq name.now (codes "TCP::respond"))) }
{
    name.as_bytes() == b"table".as_slice() || (all && is_respond(name))
}

fn is_respond(name: &Text) -> bool
    ensures { result ≡ bytes_eq name.now (codes "TCP::respond") }
{
    name.as_bytes() == b"TCP::respond".as_slice()
}

fn asked(call: M<Texts>) -> HostAnswer
    ensures { MatchResult call (λ c. result ≡ HostAnswer.Ask c) (λ e. result ≡ HostAnswer.Memory) }
{
    match call {
        Ok(call) => HostAnswer::Ask(call),
        Err(_) => HostAnswer::Memory,
    }
}

fn raised(fault: M<TclFault>) -> HostAnswer
    ensures { MatchResult fault (λ f. result ≡ HostAnswer.Fault f)
        (λ e. result ≡ HostAnswer.Memory) }
{
    match fault {
        Ok(fault) => HostAnswer::Fault(fault),
        Err(_) => HostAnswer::Memory,
    }
}

fn copied(alloc: Global, words: &[Text]) -> M<Texts>
    ensures { IfOk result (λ copy. copy ≡ words.now) }
{
    let mut copy = Texts::new(alloc);
    for word in words {
        copy.push(word.copy()?)?;
    }
    Ok(copy)
}
