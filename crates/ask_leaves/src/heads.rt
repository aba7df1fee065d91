// Heads of messages, read and written.

use crate::bodies::{say_body, say_head_fault};
use http_frames::request_body;
use http_heads::{
    HeadFault, RequestHead, ResponseHead, passed_request, passed_response, read_request,
    read_response, received_request, received_response, write_request, write_response,
};
use questions::Question;

/// What the head of a request is, what is written of it, or the length of its body.
pub fn request(question: &mut Question<'_>, call: &str) {
    let head = question.text();
    let head = read_request(question.alloc, head.as_bytes());
    request_answer(question, call, &head);
}

fn request_answer(question: &mut Question<'_>, call: &str, head: &Result<RequestHead, HeadFault>) {
    match head {
        Ok(head) => match call {
            "request" => say_request(question, head),
            "request_body" => say_body(question, request_body(head)),
            _ => question.say_written(write_request(question.alloc, head)),
        },
        Err(fault) => say_head_fault(question, *fault),
    }
}

fn say_request(question: &mut Question<'_>, head: &RequestHead) {
    question.say("ok");
    question.say_text(head.method.as_bytes());
    question.say_text(head.target.as_bytes());
    question.say_number(u64::from(head.version.minor()));
    question.say_pairs(head.fields.as_slice());
}

/// What is written of the head of a request as it is sent on.
pub fn pass_request(question: &mut Question<'_>) {
    let head = question.text();
    match read_request(question.alloc, head.as_bytes()) {
        Ok(head) => say_passed_request(question, head),
        Err(fault) => say_head_fault(question, fault),
    }
}

fn say_passed_request(question: &mut Question<'_>, head: RequestHead) {
    let values = head.fields.values(question.alloc, b"connection");
    let connection = question.made_texts(values);
    let head = passed_request(head, connection.as_slice());
    question.say_written(write_request(question.alloc, &head));
}

/// What is written of the head of a request as rules see it, or its fault.
pub fn receive_request(question: &mut Question<'_>) {
    let head = question.text();
    match read_request(question.alloc, head.as_bytes()) {
        Ok(head) => {
            let head = received_request(question.alloc, head);
            request_answer(question, "received_request", &head);
        }
        Err(fault) => say_head_fault(question, fault),
    }
}

/// What the head of a response is, or what is written of it.
pub fn response(question: &mut Question<'_>, call: &str) {
    let head = question.text();
    let head = read_response(question.alloc, head.as_bytes());
    response_answer(question, call, &head);
}

fn response_answer(
    question: &mut Question<'_>,
    call: &str,
    head: &Result<ResponseHead, HeadFault>,
) {
    match head {
        Ok(head) if call == "response" => say_response(question, head),
        Ok(head) => question.say_written(write_response(question.alloc, head)),
        Err(fault) => say_head_fault(question, *fault),
    }
}

fn say_response(question: &mut Question<'_>, head: &ResponseHead) {
    question.say("ok");
    question.say_number(u64::from(head.version.minor()));
    question.say_number(u64::from(head.status.code()));
    question.say_text(head.reason.as_bytes());
    question.say_pairs(head.fields.as_slice());
}

/// What is written of the head of a response as it is sent on.
pub fn pass_response(question: &mut Question<'_>) {
    let head = question.text();
    match read_response(question.alloc, head.as_bytes()) {
        Ok(head) => say_passed_response(question, head),
        Err(fault) => say_head_fault(question, fault),
    }
}

fn say_passed_response(question: &mut Question<'_>, head: ResponseHead) {
    let values = head.fields.values(question.alloc, b"connection");
    let connection = question.made_texts(values);
    let head = passed_response(head, connection.as_slice());
    question.say_written(write_response(question.alloc, &head));
}

/// What is written of the head of a response as rules see it.
pub fn receive_response(question: &mut Question<'_>) {
    let head = question.text();
    match read_response(question.alloc, head.as_bytes()) {
        Ok(head) => say_received_response(question, head),
        Err(fault) => say_head_fault(question, fault),
    }
}

fn say_received_response(question: &mut Question<'_>, head: ResponseHead) {
    match received_response(question.alloc, head) {
        Ok(head) => question.say_written(write_response(question.alloc, &head)),
        Err(_) => question.refuse(),
    }
}
