// The length of a body, and what can be wrong with a message.

use http_frames::{Body, response_body};
use http_heads::{HeadFault, ResponseHead, Version, read_response};
use px_bytes::HttpFault;
use questions::Question;

/// The length of the body of a response, by its head, and the method and the version of the request.
pub fn response(question: &mut Question<'_>) {
    let head = question.text();
    let method = question.text();
    let asked = version(question);
    let head = read_response(question.alloc, head.as_bytes());
    say_response_body(question, &head, method.as_bytes(), asked);
}

fn say_response_body(
    question: &mut Question<'_>,
    head: &Result<ResponseHead, HeadFault>,
    method: &[u8],
    asked: Version,
) {
    match head {
        Ok(head) => say_body(question, response_body(head, method, asked)),
        Err(fault) => say_head_fault(question, *fault),
    }
}

fn version(question: &mut Question<'_>) -> Version {
    match question.number(1) {
        0 => Version::Http10,
        _ => Version::Http11,
    }
}

/// The length of a body.
pub fn say_body(question: &mut Question<'_>, body: Result<Body, HttpFault>) {
    match body {
        Ok(Body::None) => question.say("none"),
        Ok(Body::Length(size)) => {
            question.say("length");
            question.say_number(size);
        }
        Ok(Body::Chunked) => question.say("chunked"),
        Ok(Body::ToEnd) => question.say("to_end"),
        Err(fault) => say_fault(question, fault),
    }
}

/// What is wrong with a head.
pub fn say_head_fault(question: &mut Question<'_>, fault: HeadFault) {
    match fault {
        HeadFault::Memory => question.refuse(),
        HeadFault::Fault(fault) => say_fault(question, fault),
    }
}

/// `fault` and the number of the fault.
pub fn say_fault(question: &mut Question<'_>, fault: HttpFault) {
    question.say("fault");
    question.say_number(match fault {
        HttpFault::BadHead => 1,
        HttpFault::LongHead => 2,
        HttpFault::Host => 3,
        HttpFault::Framing => 4,
        HttpFault::BadChunk => 5,
        HttpFault::ShortBody => 6,
        HttpFault::Switching => 7,
        HttpFault::Method => 8,
    });
}
