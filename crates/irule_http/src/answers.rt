// What `HTTP::respond` and `HTTP::redirect` send.

ghost use Rattle.std.specs.Prelude.{◌≡◌, ◌++◌, ◌<◌, IfOk};
ghost use Rattle.px_bytes.specs.Gives.{Gives};
ghost use Rattle.irule_net.specs.Answered.{CarriedOut};
ghost use Rattle.irule_http.specs.Answers.{answer_closes, answers, closes_by, code_in, code_of};
ghost use Rattle.http_answers.specs.Answers.{composed};
ghost use Rattle.irule_http.specs.Answers.{is_before_body};
ghost use Rattle.irule_http.specs.Answers.{redirects, redirects_by, responds, responds_by, sends};
ghost use Rattle.irule_http.specs.Commands.{bytes_of};
ghost use Rattle.http_answers.specs.Options.{pairs_of};
ghost use Rattle.http_answers.specs.Seen.{seen};
ghost use Rattle.irule_http.specs.State.{expects_by, persists_by};

use crate::edits::no_value;
use crate::faults::already_answered;
use crate::words::word_at;
use crate::{Http, Request};
use event_order::EventName;
use http_answers::{
    Answer, are_fields, composed, content_of, field_words, gives_close, has_server, version_of,
};
use http_heads::Version;
use px_bytes::{HostAnswer, Raise, TclFault, Text, number};
use std::alloc::Global;

/// The most bytes that the bodies of one event send.
const ANSWER_LIMIT: usize = 1_114_112;

pub(crate) fn persists_by(came: &Option<Request>) -> bool
    ensures { result ≡ persists_by came.now }
{
    match came {
        Some(request) => request.persists,
        None => false,
    }
}

fn expects_by(came: &Option<Request>) -> bool
    ensures { result ≡ expects_by came.now }
{
    match came {
        Some(request) => request.expects,
        None => false,
    }
}

// Whether a client that waits to be told to go on isn't told so yet.
fn is_before_body(event: EventName) -> bool
    ensures { result ≡ is_before_body event }
{
    matches!(event, EventName::HttpRequest)
}

// Whether the client's connection closes behind an answer, whatever that says.
fn closes_by(event: EventName, state: &Http) -> bool
    ensures { result ≡ closes_by event state.now }
{
    !persists_by(&state.came) || state.closes || (is_before_body(event) && expects_by(&state.came))
}

// Whether it closes behind an answer that is given these names and values.
fn answer_closes(event: EventName, given: &[Text], state: &Http) -> bool
    ensures { result ≡ answer_closes event (pairs_of given.now) state.now }
{
    gives_close(given) || closes_by(event, state)
}

// Sends an answer, within its limits, unless a rule has answered.
fn answers(
    alloc: Global,
    state: &mut Http,
    name: &[u8],
    answer: &Answer<'_>,
    sent: &mut Text,
) -> Result<HostAnswer, Raise>
    requires { answer.now.code < 1000 }
    ensures { CarriedOut (answers name.now (seen answer.now) state.old) result state.new
        (λ es. sent.new ≡ sent.old ++ bytes_of es) }
{
    match composed(alloc, &state.request, answer)? {
        Some(text) => sends(alloc, state, name, answer.closes, text.as_bytes(), sent),
        None => Raise::too_long(alloc),
    }
}

// Sends the bytes of an answer.
fn sends(
    alloc: Global,
    state: &mut Http,
    name: &[u8],
    closes: bool,
    text: &[u8],
    sent: &mut Text,
) -> Result<HostAnswer, Raise>
    ensures { CarriedOut (sends name.now closes text.now state.old) result state.new
        (λ es. sent.new ≡ sent.old ++ bytes_of es) }
{
    let length = text.len();
    if length > ANSWER_LIMIT || state.made > ANSWER_LIMIT - length {
        return Raise::too_long(alloc);
    }
    if state.answer.is_some() {
        return already_answered(alloc, name);
    }
    sent.push(text)?;
    state.answer = Some(closes);
    state.made += length;
    Ok(no_value(alloc))
}

// A code from 200 to 599.
fn code_in(alloc: Global, number: i64) -> Result<u16, Raise>
    ensures gives { Gives result (code_in number) }
    ensures small { IfOk result (λ code. code < 1000) }
{
    match u16::try_from(number) {
        Ok(code) if 200 <= code && code <= 599 => Ok(code),
        _ => Err(Raise::Fault(TclFault::out_of_range(alloc)?)),
    }
}

fn code_of(alloc: Global, words: &[Text]) -> Result<u16, Raise>
    ensures gives { Gives result (code_of words.now) }
    ensures small { IfOk result (λ code. code < 1000) }
{
    code_in(alloc, number(alloc, word_at(words, 0))?)
}

/// `HTTP::respond CODE [-version V] [content TEXT] [noserver] [NAME VALUE ..]`
pub(crate) fn responds(
    alloc: Global,
    state: &mut Http,
    event: EventName,
    name: &[u8],
    words: &[Text],
    sent: &mut Text,
) -> Result<HostAnswer, Raise>
    ensures { CarriedOut (responds event name.now words.now state.old) result state.new
        (λ es. sent.new ≡ sent.old ++ bytes_of es) }
{
    match version_of(words) {
        Some(version) if are_fields(field_words(words)) => {
            responds_by(alloc, state, event, name, words, version, sent)
        }
        _ => Raise::syntax(alloc, name),
    }
}

fn responds_by(
    alloc: Global,
    state: &mut Http,
    event: EventName,
    name: &[u8],
    words: &[Text],
    version: Version,
    sent: &mut Text,
) -> Result<HostAnswer, Raise>
    ensures { CarriedOut (responds_by event name.now words.now version (code_of words.now) state.old)
        result state.new (λ es. sent.new ≡ sent.old ++ bytes_of es) }
{
    let code = code_of(alloc, words)?;
    let given = field_words(words);
    let answer = Answer {
        version,
        code,
        given,
        server: has_server(words),
        closes: answer_closes(event, given, state),
        content: content_of(words),
    };
    answers(alloc, state, name, &answer, sent)
}

/// `HTTP::redirect URL`
pub(crate) fn redirects(
    alloc: Global,
    state: &mut Http,
    event: EventName,
    name: &[u8],
    words: &[Text],
    sent: &mut Text,
) -> Result<HostAnswer, Raise>
    ensures { CarriedOut (redirects event name.now words.now state.old) result state.new
        (λ es. sent.new ≡ sent.old ++ bytes_of es) }
{
    let given = [
        Text::new(alloc, b"Location")?,
        Text::new(alloc, word_at(words, 0))?,
    ];
    redirects_by(alloc, state, event, name, &given, sent)
}

// A redirect that is given these names and values.
fn redirects_by(
    alloc: Global,
    state: &mut Http,
    event: EventName,
    name: &[u8],
    given: &[Text],
    sent: &mut Text,
) -> Result<HostAnswer, Raise>
    ensures { CarriedOut (redirects_by event name.now (pairs_of given.now) state.old) result state.new
        (λ es. sent.new ≡ sent.old ++ bytes_of es) }
{
    if !are_fields(given) {
        return Raise::syntax(alloc, name);
    }
    let answer = Answer {
        version: Version::Http10,
        code: 302,
        given,
        server: true,
        closes: closes_by(event, state),
        content: &[],
    };
    answers(alloc, state, name, &answer, sent)
}
