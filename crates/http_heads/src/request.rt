// The head of a request.

ghost use Rattle.std.specs.Prelude.{◌≡◌, ◌++◌, ◌≤◌, IfOk, Ok, OnOk, length, true};
ghost use Rattle.httparse.specs.Grammar.{is_token};
ghost use Rattle.httparse.specs.Spans.{IsRequestOf, IsRequestWithin};
ghost use Rattle.http_heads.specs.Heads.{GivesRequest, bare_request};
ghost use Rattle.http_heads.specs.Lines.{IsTarget};
ghost use Rattle.http_heads.specs.Reading.{IsTold, read_request};
ghost use Rattle.http_heads.specs.Written.{request_line, written_request};

use crate::fault::HeadFault;
use crate::fields::Fields;
use crate::line::{RequestMethod, RequestTarget, Version, version_of};
use crate::spans::fields_at;
use crate::written::{put_section, put_version};
use httparse::Status;
use httparse::spans::{EMPTY_HEADER_SPAN, HeaderSpan, RequestSpans, parse_request};
use px_bytes::{HttpFault, M, Text};
use std::alloc::Global;

/// The head of a request: RFC 9112, 3 and 5.
#[derive(Drop)]
pub struct RequestHead {
    pub method: RequestMethod,
    pub target: RequestTarget,
    pub version: Version,
    pub fields: Fields,
}

impl RequestHead {
    /// The same head.
    pub fn copy(&self, alloc: Global) -> M<RequestHead>
        ensures { IfOk result (λ head. head ≡ self.now) }
    {
        Ok(RequestHead {
            method: self.method.copy()?,
            target: self.target.copy()?,
            version: self.version,
            fields: self.fields.copy(alloc)?,
        })
    }
}

// The head at the spans.
fn request_at(
    alloc: Global,
    head: &[u8],
    found: &RequestSpans,
    headers: &[HeaderSpan],
) -> M<RequestHead>
    requires within { IsRequestWithin head.now headers.now found.now }
    requires is_head { IsRequestOf head.now headers.now found.now }
    requires whole { found.now.len ≡ length head.now }
    requires few { length headers.now ≤ 100 }
    ensures { IfOk result (λ r. GivesRequest (Ok r) head.now) }
{
    let method = Text::new(alloc, found.method.of(head))?;
    let target = Text::new(alloc, found.path.of(head))?;
    let fields = fields_at(alloc, head, &headers[..found.headers])?;
    Ok(RequestHead {
        method: RequestMethod::new(method),
        target: RequestTarget::read(target),
        version: version_of(found.version),
        fields,
    })
}

/// Reads bytes that are the whole head of a request, with at most 100 fields.
pub fn read_request(alloc: Global, head: &[u8]) -> Result<RequestHead, HeadFault>
    ensures gives { GivesRequest result head.now }
    ensures value { IsTold result (read_request head.now) }
{
    let mut headers = [EMPTY_HEADER_SPAN; 100];
    if let Ok(Status::Complete(found)) = parse_request(head, &mut headers) {
        if found.len == head.len() {
            return Ok(request_at(alloc, head, &found, &headers)?);
        }
    }
    Err(HeadFault::Fault(HttpFault::BadHead))
}

/// Writes the first line.
pub(crate) fn put_request_line(out: &mut Vec<u8>, head: &RequestHead) -> M<()>
    ensures text { OnOk result (out.new.items ≡ out.old.items ++ request_line head.now) }
    ensures is_token { is_token head.now.method ≡ true }
    ensures is_target { IsTarget head.now.target }
{
    let method = head.method.as_bytes();
    let target = head.target.as_bytes();
    out.extend_from_slice(method)?;
    out.extend_from_slice(b" ")?;
    out.extend_from_slice(target)?;
    out.extend_from_slice(b" ")?;
    put_version(out, head.version)?;
    out.extend_from_slice(b"\r\n")?;
    Ok(())
}

/// The head as it is written, each line ended by CRLF. It is read back as the same head, without the
/// white space around its values.
pub fn write_request(alloc: Global, head: &RequestHead) -> M<Text>
    ensures text { IfOk result (λ t. t ≡ written_request head.now) }
    ensures reads_back { IfOk result (λ t. GivesRequest (Ok (bare_request head.now)) t) }
{
    let mut out = Vec::new(alloc);
    put_request_line(&mut out, head)?;
    put_section(&mut out, head.fields.as_slice())?;
    Ok(Text::from_vec(out))
}
