// The heads that go out.

ghost use Rattle.std.specs.Prelude.{◌≡◌, IfOk};
ghost use Rattle.irule_http.specs.Sent.{changed_length, client_closes, closes_by_heads};
ghost use Rattle.irule_http.specs.Sent.{interim_head, lasts_to_end, length_with, option_of};
ghost use Rattle.irule_http.specs.Sent.{request_text, response_text, sent_head};

use crate::answers::persists_by;
use crate::{Http, Response};
use http_frames::Body;
use http_heads::{ConnectionOption, Version, forward_request, forward_response};
use px_bytes::{M, Side, Text};
use std::alloc::Global;

// The length of a body of which so many bytes were gathered, in place of which so many go out.
fn length_with(size: u64, gathered: usize, now: usize) -> Option<u64>
    ensures { result ≡ length_with size gathered now }
{
    if gathered == now {
        return None;
    }
    Some(
        size.saturating_sub(gathered as u64)
            .saturating_add(now as u64),
    )
}

fn changed_length(http: &Http) -> Option<u64>
    ensures { result ≡ changed_length http.now.body http.now.gathered http.now.payload }
{
    match (http.body, http.gathered) {
        (Body::Length(size), Some(gathered)) => length_with(size, gathered, http.payload.len()),
        _ => None,
    }
}

fn lasts_to_end(response: &Option<Response>) -> bool
    ensures { result ≡ lasts_to_end response.now }
{
    match response {
        Some(response) => matches!(response.body, Body::ToEnd),
        None => false,
    }
}

fn closes_by_heads(http: &Http) -> bool
    ensures { result ≡ closes_by_heads http.now }
{
    !persists_by(&http.came) || http.closes || lasts_to_end(&http.answered_by)
}

/// Whether the client's connection closes behind the message at hand, or behind the answer of a rule (RFC 9112,
/// 9.3 and 9.6).
pub fn client_closes(http: &Http) -> bool
    ensures { result ≡ client_closes http.now }
{
    match http.answer {
        Some(closes) => closes || http.closes,
        None => closes_by_heads(http),
    }
}

// What a response says of the client's connection.
fn option_of(http: &Http) -> Option<ConnectionOption>
    ensures { result ≡ option_of http.now }
{
    if closes_by_heads(http) {
        return Some(ConnectionOption::Close);
    }
    match &http.came {
        Some(request) => match request.head.version {
            Version::Http10 => Some(ConnectionOption::KeepAlive),
            Version::Http11 => None,
        },
        None => None,
    }
}

fn sent_request(alloc: Global, http: &Http) -> M<Text>
    ensures { IfOk result (λ text. text ≡ request_text http.now http.now.request) }
{
    match &http.request {
        Some(head) => forward_request(alloc, head, changed_length(http)),
        None => Ok(Text::empty(alloc)),
    }
}

fn sent_response(alloc: Global, http: &Http) -> M<Text>
    ensures { IfOk result (λ text. text ≡ response_text http.now http.now.response) }
{
    match &http.response {
        Some(head) => forward_response(alloc, head, changed_length(http), option_of(http)),
        None => Ok(Text::empty(alloc)),
    }
}

/// The head of a side's message as it goes out to the other side: as rules left it, with the length of its body
/// as rules left that, and in a response with what it says of the client's connection.
pub fn sent_head(alloc: Global, side: Side, http: &Http) -> M<Text>
    ensures { IfOk result (λ text. text ≡ sent_head side http.now) }
{
    match side {
        Side::Client => sent_request(alloc, http),
        Side::Server => sent_response(alloc, http),
    }
}

/// The head of a response before the final one as it goes out: RFC 9110, 15.2.
pub fn interim_head(alloc: Global, response: &Response) -> M<Text>
    ensures { IfOk result (λ text. text ≡ interim_head response.now) }
{
    forward_response(alloc, &response.head, None, None)
}
