// The calls of px_bytes on texts and addresses.

use px_bytes::{
    Addr, escape, lower, print_addr, print_hex, print_ip, read_addr, read_hex, read_ip,
};
use questions::Question;

pub fn answer(question: &mut Question<'_>, call: &str) {
    let alloc = question.alloc;
    let text = question.text();
    match call {
        "print_hex" => question.say_made_hex(print_hex(alloc, text.as_bytes())),
        "escape" => question.say_made_hex(escape(alloc, text.as_bytes())),
        "lower" => question.say_made_hex(lower(alloc, text.as_bytes())),
        _ => address_answer(question, call, text.as_bytes()),
    }
}

// The calls on addresses.
fn address_answer(question: &mut Question<'_>, call: &str, text: &[u8]) {
    match call {
        "read_ip" => say_ip(question, text),
        "read_addr" => say_addr(question, text),
        "read_hex" => say_read_hex(question, text),
        "print_ip" => say_printed_ip(question, text),
        "print_addr" => say_printed_addr(question, text),
        _ => question.unknown(),
    }
}

fn say_ip(question: &mut Question<'_>, text: &[u8]) {
    match read_ip(text) {
        Some(ip) => question.say_number(u64::from(ip)),
        None => question.say("none"),
    }
}

fn say_addr(question: &mut Question<'_>, text: &[u8]) {
    match read_addr(text) {
        Some(addr) => {
            question.say_number(u64::from(addr.ip));
            question.say_number(u64::from(addr.port));
        }
        None => question.say("none"),
    }
}

fn say_read_hex(question: &mut Question<'_>, text: &[u8]) {
    match read_hex(question.alloc, text) {
        Ok(Some(bytes)) => question.say_hex(bytes.as_bytes()),
        Ok(None) => question.say("none"),
        Err(_) => question.refuse(),
    }
}

fn say_printed_ip(question: &mut Question<'_>, bytes: &[u8]) {
    let [a, b, c, d] = bytes else {
        question.unknown();
        return;
    };
    let ip = u32::from_be_bytes([*a, *b, *c, *d]);
    question.say_made_hex(print_ip(question.alloc, ip));
}

fn say_printed_addr(question: &mut Question<'_>, ip: &[u8]) {
    let port = question.text();
    let ([a, b, c, d], [high, low]) = (ip, port.as_bytes()) else {
        question.unknown();
        return;
    };
    let addr = Addr {
        ip: u32::from_be_bytes([*a, *b, *c, *d]),
        port: u16::from_be_bytes([*high, *low]),
    };
    question.say_made_hex(print_addr(question.alloc, addr));
}
