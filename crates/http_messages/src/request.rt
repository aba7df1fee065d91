// A request as it is read.

ghost use Rattle.std.specs.Prelude.{◌≡◌};
ghost use Rattle.http_heads.specs.Reading.{IsTold};
ghost use Rattle.http_heads.specs.Targets.{is_connect};
ghost use Rattle.http_heads.specs.Received.{received_request};
ghost use Rattle.http_messages.specs.Messages.{framing_of, request_of, seen_request};

use crate::connection::{asks_continue, expects, persists};
use http_frames::{Body, request_body};
use http_heads::{HeadFault, RequestHead, read_request, received_request};
use irule_http::Request;
use px_bytes::HttpFault;
use std::alloc::Global;

fn is_connect(method: &[u8]) -> bool
    ensures { result ≡ is_connect method.now }
{
    method == b"CONNECT".as_slice()
}

// How the length of its body is known.
fn framing_of(head: &RequestHead) -> Result<Body, HttpFault>
    ensures { result ≡ framing_of head.now }
{
    let body = request_body(head)?;
    if is_connect(head.method.as_bytes()) {
        return Err(HttpFault::Method);
    }
    Ok(body)
}

// The request of a head as it came, by which persistence and `Expect` go.
fn seen_request(alloc: Global, came: RequestHead) -> Result<Request, HeadFault>
    ensures { IsTold result (seen_request came (received_request came)) }
{
    let version = came.version;
    let persists = persists(version, &came.fields);
    let asks = asks_continue(&came.fields);
    match received_request(alloc, came) {
        Ok(head) => match framing_of(&head) {
            Ok(body) => Ok(Request {
                head,
                body,
                persists,
                expects: expects(version, body, asks),
            }),
            Err(fault) => Err(HeadFault::Fault(fault)),
        },
        Err(why) => Err(why),
    }
}

/// The request whose head these bytes are, without further ones; else its first fault: `BadHead` where they are none with
/// at most 100 fields, or its target can't be served, `Host`, `Framing`, `Method` of CONNECT.
pub fn request_of(alloc: Global, bytes: &[u8]) -> Result<Request, HeadFault>
    ensures { IsTold result (request_of bytes.now) }
{
    match read_request(alloc, bytes) {
        Ok(came) => seen_request(alloc, came),
        Err(why) => Err(why),
    }
}
