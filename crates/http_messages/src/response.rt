// A response as it is read.

ghost use Rattle.std.specs.Prelude.{◌≡◌, option_map};
ghost use Rattle.http_heads.specs.Reading.{IsTold};
ghost use Rattle.http_heads.specs.Received.{received_response};
ghost use Rattle.http_messages.specs.Messages.{asked_body, response_of, seen_response};

use crate::connection::persists;
use http_frames::{Body, response_body};
use http_heads::{HeadFault, ResponseHead, Version, read_response, received_response};
use irule_http::{Request, Response};
use px_bytes::HttpFault;
use std::alloc::Global;

// How the length of its body is known, by the request that it answers.
fn asked_body(asked: Option<&Request>, head: &ResponseHead) -> Result<Body, HttpFault>
    ensures { result ≡ asked_body (option_map (λ r. r.now) asked.entry) head.now }
{
    match asked {
        Some(request) => response_body(head, request.head.method.as_bytes(), request.head.version),
        None => response_body(head, b"", Version::Http10),
    }
}

// The response of a head as it came, by which persistence goes.
fn seen_response(
    alloc: Global,
    asked: Option<&Request>,
    came: ResponseHead,
) -> Result<Response, HeadFault>
    ensures { let asked = option_map (λ r. r.now) asked.entry in
        IsTold result (seen_response asked came (received_response came)) }
{
    let persists = persists(came.version, &came.fields);
    let head = received_response(alloc, came)?;
    match asked_body(asked, &head) {
        Ok(body) => Ok(Response {
            head,
            body,
            persists,
        }),
        Err(fault) => Err(HeadFault::Fault(fault)),
    }
}

/// The response whose head these bytes are, without further ones, by the request that it answers; else its first fault:
/// `BadHead` where they are none with at most 100 fields, or `Framing`.
pub fn response_of(
    alloc: Global,
    asked: Option<&Request>,
    bytes: &[u8],
) -> Result<Response, HeadFault>
    ensures { IsTold result (response_of (option_map (λ r. r.now) asked.entry) bytes.now) }
{
    match read_response(alloc, bytes) {
        Ok(came) => seen_response(alloc, asked, came),
        Err(why) => Err(why),
    }
}
