// A head as it is forwarded.

ghost use Rattle.std.specs.Prelude.{◌≡◌, ◌++◌, ◌≤◌, false, IfOk, Ok, OnOk, length};
ghost use Rattle.httparse.specs.Grammar.{print_field};
ghost use Rattle.http_heads.specs.Forwarded.{connection_field, fields_out, forwarded_request};
ghost use Rattle.http_heads.specs.Forwarded.{forwarded_response, is_forwarded, is_omitted};
ghost use Rattle.http_heads.specs.Forwarded.{next_out, omitted_of, option_text};
ghost use Rattle.http_heads.specs.Forwarded.{told_behind, with_length};
ghost use Rattle.http_heads.specs.Heads.{GivesRequest, GivesResponse, bare_request, bare_response};
ghost use Rattle.http_heads.specs.Written.{line_of, lines_of, written_request};
ghost use Rattle.http_heads.specs.Written.{written_response};

use crate::fields::is_named;
use crate::passed::goes_on;
use crate::request::{RequestHead, put_request_line};
use crate::response::{ResponseHead, put_status_line};
use crate::written::put_field;
use px_bytes::{M, Text};
use std::alloc::Global;

/// What a response says of the connection on which it goes out: RFC 9110, 7.6.1.
#[derive(Clone, Copy, PartialEq, Eq)]
pub enum ConnectionOption {
    Close,
    KeepAlive,
}

impl ConnectionOption {
    fn as_bytes(self) -> &'static [u8]
        ensures { result.now ≡ option_text self }
    {
        match self {
            ConnectionOption::Close => b"close",
            ConnectionOption::KeepAlive => b"Keep-Alive",
        }
    }
}

/// The fields that a message leaves out beside those that speak of the connection on which it came.
#[derive(Clone, Copy, PartialEq, Eq)]
pub(crate) enum Omitted {
    Expect,
    /// Length and coding.
    Framing,
    Coding,
    Nothing,
}

fn is_omitted(omitted: Omitted, field: &(Text, Text)) -> bool
    ensures { result ≡ is_omitted omitted field.now }
{
    match omitted {
        Omitted::Expect => is_named(b"expect", field),
        Omitted::Framing => {
            is_named(b"content-length", field) || is_named(b"transfer-encoding", field)
        }
        Omitted::Coding => is_named(b"transfer-encoding", field),
        Omitted::Nothing => false,
    }
}

fn omitted_of(status: u16) -> Omitted
    ensures { result ≡ omitted_of status }
{
    if status < 200 || status == 204 {
        Omitted::Framing
    } else if status == 304 {
        Omitted::Coding
    } else {
        Omitted::Nothing
    }
}

fn is_forwarded(omitted: Omitted, field: &(Text, Text)) -> bool
    ensures { result ≡ is_forwarded omitted field.now }
{
    !is_omitted(omitted, field) && goes_on(&[], field.0.as_bytes())
}

// The line of a field, with this length where it tells one.
fn put_with_length(
    alloc: Global,
    out: &mut Vec<u8>,
    field: &(Text, Text),
    size: Option<u64>,
) -> M<()>
    ensures { OnOk result (out.new.items
        ≡ out.old.items ++ print_field (line_of (with_length size field.now))) }
{
    match size {
        Some(size) if is_named(b"content-length", field) => {
            let digits = Text::from_vec(format!(in alloc; "{size}")?.into_bytes());
            put_field(out, field.0.as_bytes(), digits.as_bytes())
        }
        _ => put_field(out, field.0.as_bytes(), field.1.as_bytes()),
    }
}

// How fields are forwarded: what is left out, and the length in place of the one that came.
#[derive(Clone, Copy)]
struct Forwarding {
    omitted: Omitted,
    size: Option<u64>,
}

// The line of a field, where it goes out behind others, of which one told a length or none; whether one tells
// it now.
fn put_next(
    alloc: Global,
    out: &mut Vec<u8>,
    field: &(Text, Text),
    by: Forwarding,
    told: bool,
) -> M<bool>
    ensures lines { OnOk result (out.new.items
        ≡ out.old.items ++ lines_of (next_out by.omitted by.size told field.now)) }
    ensures told { IfOk result (λ is. is ≡ told_behind by.omitted told field.now) }
{
    let tells = is_named(b"content-length", field);
    if !is_forwarded(by.omitted, field) || (tells && told) {
        return Ok(told);
    }
    put_with_length(alloc, out, field, by.size)?;
    Ok(told || tells)
}

fn put_fields(alloc: Global, out: &mut Vec<u8>, fields: &[(Text, Text)], by: Forwarding) -> M<()>
    ensures { OnOk result (out.new.items
        ≡ out.old.items ++ lines_of (fields_out by.omitted by.size false fields.now)) }
{
    let mut told = false;
    for field in fields {
        told = put_next(alloc, out, field, by, told)?;
    }
    Ok(())
}

fn put_connection(out: &mut Vec<u8>, option: Option<ConnectionOption>) -> M<()>
    ensures { OnOk result (out.new.items ≡ out.old.items ++ lines_of (connection_field option)) }
{
    match option {
        Some(option) => put_field(out, b"Connection", option.as_bytes()),
        None => Ok(()),
    }
}

/// A request's head as it is written where it is forwarded: as `passed_request` has it where the head was
/// received so, and with another length of its body where one is given.
pub fn forward_request(alloc: Global, head: &RequestHead, size: Option<u64>) -> M<Text>
    ensures text { IfOk result (λ t. t ≡ written_request (forwarded_request size head.now)) }
    ensures reads_back { IfOk result (λ t.
        GivesRequest (Ok (bare_request (forwarded_request size head.now))) t) }
{
    let mut out = Vec::new(alloc);
    put_request_line(&mut out, head)?;
    let by = Forwarding {
        omitted: Omitted::Expect,
        size,
    };
    put_fields(alloc, &mut out, head.fields.as_slice(), by)?;
    out.extend_from_slice(b"\r\n")?;
    Ok(Text::from_vec(out))
}

/// A response's head likewise, as `passed_response` has it, with what it says of the client's connection behind
/// its fields.
pub fn forward_response(
    alloc: Global,
    head: &ResponseHead,
    size: Option<u64>,
    option: Option<ConnectionOption>,
) -> M<Text>
    ensures text { IfOk result (λ t.
        t ≡ written_response (forwarded_response size option head.now)) }
    ensures reads_back { IfOk result (λ t. length (forwarded_response size option head.now).fields ≤ 100
        → GivesResponse (Ok (bare_response (forwarded_response size option head.now))) t) }
{
    let mut out = Vec::new(alloc);
    put_status_line(&mut out, head)?;
    let by = Forwarding {
        omitted: omitted_of(head.status.code()),
        size,
    };
    put_fields(alloc, &mut out, head.fields.as_slice(), by)?;
    put_connection(&mut out, option)?;
    out.extend_from_slice(b"\r\n")?;
    Ok(Text::from_vec(out))
}
