// The calls of tcl_lists.

use crate::compiled::say_place;
use px_bytes::Texts;
use questions::Question;
use tcl_lists::{ElementPlaces, ListFault, join_list, places, split};

pub fn answer(question: &mut Question<'_>, call: &str) {
    match call {
        "split" => split_answer(question),
        "places" => places_answer(question),
        _ => {
            let elements = question.all_texts();
            question.say_made_hex(join_list(question.alloc, &elements));
        }
    }
}

fn split_answer(question: &mut Question<'_>) {
    let text = question.text();
    match split(question.alloc, text.as_bytes()) {
        Ok(elements) => say_elements(question, &elements),
        Err(fault) => say_fault(question, fault),
    }
}

fn places_answer(question: &mut Question<'_>) {
    let text = question.text();
    match places(question.alloc, text.as_bytes()) {
        Ok(places) => say_places(question, &places),
        Err(fault) => say_fault(question, fault),
    }
}

fn say_elements(question: &mut Question<'_>, elements: &Texts) {
    question.say("ok");
    question.say_number(elements.len() as u64);
    for element in elements.as_slice() {
        question.say_hex(element.as_bytes());
    }
}

fn say_places(question: &mut Question<'_>, places: &ElementPlaces) {
    question.say("ok");
    question.say_number(places.len() as u64);
    for place in places.as_slice() {
        question.say_number(place.start as u64);
        question.put(b"-");
        question.put_number(place.end as u64);
        if place.braced {
            question.put(b"*");
        }
    }
}

fn say_fault(question: &mut Question<'_>, fault: ListFault) {
    match fault {
        ListFault::OpenBrace(at) => say_place(question, "fault open_brace", at),
        ListFault::OpenQuote(at) => say_place(question, "fault open_quote", at),
        ListFault::Extra(at) => say_place(question, "fault extra", at),
        ListFault::Memory => question.refuse(),
    }
}
