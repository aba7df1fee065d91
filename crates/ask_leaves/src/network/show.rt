// What a call answers and does, and the state, as they stand in a line.

use irule_net::{Asks, Ending, Made, NetState, Target};
use px_bytes::{HostAnswer, Side, Text, escape};
use questions::Question;

/// The most bytes of a text that an answer writes out.
const WRITTEN: usize = 300;

/// Adds what is between the answers to calls.
pub fn begin_call(question: &mut Question<'_>) {
    if question.is_answered() {
        question.put(b" ; ");
    }
}

// Adds a blank and a text: escaped, `-` where it is empty, and its length behind `#` where it is
// long.
fn say_text(question: &mut Question<'_>, text: &Text) {
    if text.len() == 0 {
        question.put(b" -");
    } else if text.len() > WRITTEN {
        question.put(b" #");
        question.put_number(text.len() as u64);
    } else {
        question.put(b" ");
        question.put_made(escape(question.alloc, text.as_bytes()));
    }
}

fn say_if(question: &mut Question<'_>, holds: bool, word: &[u8]) {
    if holds {
        question.put(word);
    }
}

/// `ok` and the value where it isn't empty; `fault`, the number of its kind, and its text; or `ask`
/// and the words of the shared call.
pub fn say_outcome(question: &mut Question<'_>, outcome: &HostAnswer) {
    match outcome {
        HostAnswer::Value(text) => {
            question.put(b"ok");
            if text.len() > 0 {
                say_text(question, text);
            }
        }
        HostAnswer::Fault(fault) => {
            question.put(b"fault ");
            question.put_number(fault.kind as u64);
            say_text(question, &fault.text);
        }
        HostAnswer::Ask(call) => {
            question.put(b"ask");
            for word in call.as_slice() {
                say_text(question, word);
            }
        }
        HostAnswer::Memory => question.put(b"memory"),
    }
}

/// What commands did outside the script: lines that were logged, and bytes that were sent.
pub fn say_effects(question: &mut Question<'_>, made: &[Made]) {
    for effect in made {
        match effect {
            Made::Logged(line) => {
                question.put(b" | log");
                say_text(question, line);
            }
            Made::Sent(side, bytes) => {
                question.put(b" | ");
                question.put(side_name(*side).as_bytes());
                say_text(question, bytes);
            }
        }
    }
}

fn side_name(side: Side) -> &'static str {
    match side {
        Side::Client => "client",
        Side::Server => "server",
    }
}

/// What the bodies of the event did and asked for.
pub fn say_wishes(question: &mut Question<'_>, state: &NetState) {
    let wishes = state.wishes;
    begin_call(question);
    question.put(b"sent ");
    question.put_number(wishes.sent as u64);
    question.put(b" let_go ");
    question.put_number(wishes.let_go as u64);
    say_if(question, wishes.released, b" released");
    say_if(question, wishes.reselects, b" reselects");
    say_if(question, wishes.detaches, b" detaches");
    match wishes.ends {
        Some(Ending::Rejects) => question.put(b" rejects"),
        Some(Ending::Closes) => question.put(b" closes"),
        None => {}
    }
}

/// Where a server is to come from, and how often that was asked anew.
pub fn say_choice(question: &mut Question<'_>, state: &NetState) {
    begin_call(question);
    question.put(b"reselects ");
    question.put_number(u64::from(state.reselects));
    match &state.target {
        Target::Default => question.put(b" default"),
        Target::PoolOf(name) => {
            question.put(b" pool");
            say_text(question, name);
        }
        Target::MemberOf(name, addr) => {
            question.put(b" member");
            say_text(question, name);
            question.say_address(Some(*addr));
        }
        Target::NodeAt(addr) => {
            question.put(b" node");
            question.say_address(Some(*addr));
        }
    }
}

/// What each side holds and its collect asks for, and what waits for a server.
pub fn say_sides(question: &mut Question<'_>, state: &NetState) {
    begin_call(question);
    say_side(question, state, Side::Client);
    question.put(b" ");
    say_side(question, state, Side::Server);
    question.put(b" loose");
    say_text(question, &state.loose);
}

fn say_side(question: &mut Question<'_>, state: &NetState, side: Side) {
    question.put(side_name(side).as_bytes());
    say_text(question, state.held(side));
    if let Asks::Stated(count) = state.asks(side) {
        question.put(b" asks ");
        question.put_number(count as u64);
    }
}
