// The calls of records of source addresses, one after another.

use persistence::{Record, Records};
use questions::Question;
use tcl_encodings::read_address;

pub fn answer(question: &mut Question<'_>) {
    let mut records = Records::new(question.alloc);
    for _ in 0..question.left() {
        if question.has_more() {
            operation(question, &mut records);
        }
    }
}

fn operation(question: &mut Question<'_>, records: &mut Records) {
    match question.word() {
        "keep" => {
            let record = record(question);
            question.note(records.keep(record));
            question.say("kept");
        }
        "find" => {
            let virtual_server = small(question);
            let ip = ip(question);
            question.say_address(records.find(virtual_server, ip));
        }
        "expire" => {
            records.expire(question.number(1 << 53));
            question.say("done");
        }
        _ => question.unknown(),
    }
}

fn record(question: &mut Question<'_>) -> Record {
    let virtual_server = small(question);
    let ip = ip(question);
    let member = question.address();
    let touched = question.number(1 << 53);
    Record {
        virtual_server,
        ip,
        member,
        timeout: small(question),
        touched,
    }
}

fn small(question: &mut Question<'_>) -> u32 {
    question.number(1 << 31) as u32
}

fn ip(question: &mut Question<'_>) -> u32 {
    match read_address(question.word().as_bytes()) {
        Some(ip) => ip,
        None => {
            question.unknown();
            0
        }
    }
}
