// The calls of px_bytes on numbers, networks, patterns and names.

use px_bytes::{glob, print_whole, read_net, read_whole, same_name};
use questions::Question;

/// The calls on two texts.
pub fn truth_answer(question: &mut Question<'_>, call: &str) {
    let first = question.text();
    let second = question.text();
    question.say_truth(match call {
        "glob" => glob(first.as_bytes(), second.as_bytes()),
        _ => same_name(first.as_bytes(), second.as_bytes()),
    });
}

pub fn answer(question: &mut Question<'_>, call: &str) {
    let text = question.text();
    match call {
        "read_whole" => say_whole(question, text.as_bytes()),
        "print_whole" => say_printed_whole(question, text.as_bytes()),
        _ => say_net(question, text.as_bytes()),
    }
}

fn say_whole(question: &mut Question<'_>, text: &[u8]) {
    match read_whole(text) {
        Some(number) => question.put_made(print_whole(question.alloc, number)),
        None => question.say("none"),
    }
}

fn say_printed_whole(question: &mut Question<'_>, bytes: &[u8]) {
    let [a, b, c, d, e, f, g, h] = bytes else {
        question.unknown();
        return;
    };
    let number = i64::from_be_bytes([*a, *b, *c, *d, *e, *f, *g, *h]);
    question.say_made_hex(print_whole(question.alloc, number));
}

fn say_net(question: &mut Question<'_>, text: &[u8]) {
    match read_net(text) {
        Some(net) => {
            question.say_number(u64::from(net.ip));
            question.say_number(u64::from(net.bits));
        }
        None => question.say("none"),
    }
}
