// The head of a response.

ghost use Rattle.std.specs.Prelude.{◌≡◌, ◌++◌, ◌<◌, ◌≤◌, IfOk, Ok, OnOk, length, true};
ghost use Rattle.std.specs.List.{list_all};
ghost use Rattle.httparse.specs.Grammar.{is_value_byte};
ghost use Rattle.httparse.specs.Spans.{IsResponseOf, IsResponseWithin};
ghost use Rattle.http_heads.specs.Heads.{GivesResponse, bare_response};
ghost use Rattle.http_heads.specs.Reading.{IsTold, read_response};
ghost use Rattle.http_heads.specs.Written.{status_line, written_response};

use crate::fault::HeadFault;
use crate::fields::Fields;
use crate::line::{Reason, StatusCode, Version, version_of};
use crate::spans::fields_at;
use crate::written::{put_section, put_status, put_version};
use httparse::spans::{EMPTY_HEADER_SPAN, HeaderSpan, ResponseSpans, parse_response};
use px_bytes::{HttpFault, M, Text};
use std::alloc::Global;

/// The head of a response: RFC 9112, 4 and 5.
#[derive(Drop)]
pub struct ResponseHead {
    pub version: Version,
    pub status: StatusCode,
    pub reason: Reason,
    pub fields: Fields,
}

// The head at the spans.
fn response_at(
    alloc: Global,
    head: &[u8],
    found: &ResponseSpans,
    headers: &[HeaderSpan],
) -> M<ResponseHead>
    requires within { IsResponseWithin head.now headers.now found.now }
    requires is_head { IsResponseOf head.now headers.now found.now }
    requires whole { found.now.len ≡ length head.now }
    requires few { length headers.now ≤ 100 }
    ensures { IfOk result (λ r. GivesResponse (Ok r) head.now) }
{
    let reason = Text::new(alloc, found.reason.of(head))?;
    let fields = fields_at(alloc, head, &headers[..found.headers])?;
    Ok(ResponseHead {
        version: version_of(found.version),
        status: StatusCode::new(found.code),
        reason: Reason::new(reason),
        fields,
    })
}

/// Reads bytes that are the whole head of a response, with at most 100 fields.
pub fn read_response(alloc: Global, head: &[u8]) -> Result<ResponseHead, HeadFault>
    ensures gives { GivesResponse result head.now }
    ensures value { IsTold result (read_response head.now) }
{
    let mut headers = [EMPTY_HEADER_SPAN; 100];
    if let Ok(httparse::Status::Complete(found)) = parse_response(head, &mut headers) {
        if found.len == head.len() {
            return Ok(response_at(alloc, head, &found, &headers)?);
        }
    }
    Err(HeadFault::Fault(HttpFault::BadHead))
}

/// Writes the status line.
pub(crate) fn put_status_line(out: &mut Vec<u8>, head: &ResponseHead) -> M<()>
    ensures text { OnOk result (out.new.items ≡ out.old.items ++ status_line head.now) }
    ensures three_digits { IfOk result (λ _. head.now.status < 1000) }
    ensures is_reason { list_all is_value_byte head.now.reason ≡ true }
{
    let reason = head.reason.as_bytes();
    put_version(out, head.version)?;
    out.extend_from_slice(b" ")?;
    put_status(out, &head.status)?;
    out.extend_from_slice(b" ")?;
    out.extend_from_slice(reason)?;
    out.extend_from_slice(b"\r\n")?;
    Ok(())
}

/// The head as it is written, each line ended by CRLF. It is read back as the same head, without the
/// white space around its values.
pub fn write_response(alloc: Global, head: &ResponseHead) -> M<Text>
    ensures text { IfOk result (λ t. t ≡ written_response head.now) }
    ensures reads_back { IfOk result (λ t. GivesResponse (Ok (bare_response head.now)) t) }
{
    let mut out = Vec::new(alloc);
    put_status_line(&mut out, head)?;
    put_section(&mut out, head.fields.as_slice())?;
    Ok(Text::from_vec(out))
}
