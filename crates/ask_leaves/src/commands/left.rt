// What is left behind the commands of rules.

use irule_http::{Http, client_closes, sent_head};
use px_bytes::{Side, Text};
use questions::Question;

/// The head of a side's message as it goes out, or `none`.
pub fn say_head(question: &mut Question<'_>, side: Side, http: &Http) {
    let is_there = match side {
        Side::Client => http.request.is_some(),
        Side::Server => http.response.is_some(),
    };
    if is_there {
        question.say_made(sent_head(question.alloc, side, http));
    } else {
        question.say("none");
    }
}

/// The head of the request as it went out before its response came.
pub fn say_sent(question: &mut Question<'_>, request: &Option<Text>) {
    match request {
        Some(text) => question.say_text(text.as_bytes()),
        None => question.say("none"),
    }
}

/// Whether the client's connection closes behind the message; not where there is none.
pub fn closes(http: &Http) -> bool {
    http.came.is_some() && client_closes(http)
}
