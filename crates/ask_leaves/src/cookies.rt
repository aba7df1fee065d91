// Cookies.

use http_cookies::{cookies, print_bigip, read_bigip};
use px_bytes::{Addr, M, Memory, Pairs};
use questions::Question;

/// The cookies of fields.
pub fn answer(question: &mut Question<'_>) {
    let fields = question.pairs();
    let pairs = cookies(question.alloc, fields.as_slice());
    say_cookies(question, &pairs);
}

fn say_cookies(question: &mut Question<'_>, pairs: &M<Pairs>) {
    match pairs {
        Ok(pairs) => question.say_pairs(pairs.as_slice()),
        Err(Memory) => question.refuse(),
    }
}

/// The cookie's value of an address and a port.
pub fn print_answer(question: &mut Question<'_>) {
    let ip = question.text();
    let port = question.text();
    print_member(question, addr(ip.as_bytes(), port.as_bytes()));
}

fn addr(ip: &[u8], port: &[u8]) -> Option<Addr> {
    match (ip, port) {
        ([a, b, c, d], [high, low]) => Some(Addr {
            ip: u32::from_be_bytes([*a, *b, *c, *d]),
            port: u16::from_be_bytes([*high, *low]),
        }),
        _ => None,
    }
}

fn print_member(question: &mut Question<'_>, member: Option<Addr>) {
    match member {
        Some(member) => question.say_made(print_bigip(question.alloc, member)),
        None => question.unknown(),
    }
}

/// The member that a cookie's value names, as a number and a port.
pub fn read_answer(question: &mut Question<'_>) {
    let value = question.text();
    say_member(question, read_bigip(value.as_bytes()));
}

fn say_member(question: &mut Question<'_>, member: Option<Addr>) {
    match member {
        Some(member) => {
            question.say_number(u64::from(member.ip));
            question.say_number(u64::from(member.port));
        }
        None => question.say("none"),
    }
}
