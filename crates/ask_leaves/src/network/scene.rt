// A connection in an event, on which calls are made.

use crate::network::directive::directed;
use crate::network::place::groups;
use crate::network::show::{begin_call, say_effects, say_outcome};
use crate::network::words::read_words;
use event_order::EventName;
use irule_net::{Effects, Groups, NetState, net_command};
use px_bytes::Addr;
use questions::Question;

/// The client's address: 10.0.0.9, port 4000.
const CLIENT: Addr = Addr {
    ip: 0x0a00_0009,
    port: 4000,
};

/// The event, the state of the connection, and what its groups and pools are.
#[derive(Drop)]
pub struct Scene {
    pub event: EventName,
    pub state: NetState,
    groups: Groups,
    made: Effects,
}

impl Scene {
    /// A connection that was just accepted, in an event: at a virtual server with the pool `p`, and
    /// with HTTP where the kind is `http`; or at one without a pool.
    pub fn new(question: &mut Question<'_>, event: EventName, kind: &str) -> Scene {
        let pool = question.literal(if kind == "bare" { "" } else { "p" });
        Scene {
            event,
            state: NetState::new(question.alloc, CLIENT, 80, pool, kind == "http"),
            groups: groups(question),
            made: Effects::new(question.alloc),
        }
    }

    /// The answers to calls, which have `;` between.
    pub fn answer_calls(&mut self, question: &mut Question<'_>, words: &[&str]) {
        for call in words.split(|word| *word == ";") {
            self.answer_call(question, call);
        }
    }

    // A call that begins with `!` is none of a rule, but changes or shows the state.
    fn answer_call(&mut self, question: &mut Question<'_>, call: &[&str]) {
        match call {
            ["!", name, words @ ..] => directed(self, question, name, words),
            _ => self.command(question, call),
        }
    }

    fn command(&mut self, question: &mut Question<'_>, call: &[&str]) {
        let call = read_words(question, call);
        self.made.clear();
        let outcome = net_command(
            question.alloc,
            &mut self.state,
            &self.groups,
            self.event,
            &call,
            &mut self.made,
        );
        begin_call(question);
        say_outcome(question, &outcome);
        say_effects(question, self.made.as_slice());
    }
}
