// How the length of a message's body is known.

ghost use Rattle.std.specs.Prelude.{◌≡◌, codes};
ghost use Rattle.http_heads.specs.Fields.{is_named};
ghost use Rattle.http_frames.specs.Bodies.{both, coding_after, coding_named, coding_of, coding_with};
ghost use Rattle.http_frames.specs.Bodies.{fields_body, framed, is_bodiless, is_size, request_body};
ghost use Rattle.http_frames.specs.Bodies.{response_body, size_after, size_both, size_named, size_of};
ghost use Rattle.http_frames.specs.Bodies.{size_with, values};

use crate::number::number_of;
use crate::state::Body;
use http_heads::{Fields, RequestHead, ResponseHead, Version};
use px_bytes::{HttpFault, Text, same_name};

/// What the Transfer-Encoding fields say.
#[derive(Clone, Copy, PartialEq, Eq)]
enum Coding {
    Absent,
    /// One `chunked`, and no other.
    Chunked,
    Other,
}

/// What the Content-Length fields say.
#[derive(Clone, Copy, PartialEq, Eq)]
enum Size {
    Absent,
    /// Each has this number.
    Known(u64),
    Bad,
}

// Whether a field has the name, whatever the case of its letters.
fn is_named(name: &[u8], field: &(Text, Text)) -> bool
    ensures { result ≡ is_named name.now field.now }
{
    same_name(field.0.as_bytes(), name)
}

fn coding_named(value: &[u8]) -> Coding
    ensures { result ≡ coding_named value.now }
{
    if same_name(value, b"chunked") {
        Coding::Chunked
    } else {
        Coding::Other
    }
}

// The coding with one field more.
fn coding_with(coding: Coding, value: &[u8]) -> Coding
    ensures { result ≡ coding_with coding value.now }
{
    match coding {
        Coding::Absent => coding_named(value),
        Coding::Chunked | Coding::Other => Coding::Other,
    }
}

// The coding with a field more, of whatever name.
fn coding_after(coding: Coding, field: &(Text, Text)) -> Coding
    ensures { result ≡ coding_after coding field.now }
{
    if is_named(b"transfer-encoding", field) {
        coding_with(coding, field.1.as_bytes())
    } else {
        coding
    }
}

fn coding_of(fields: &[(Text, Text)]) -> Coding
    ensures { result ≡ coding_of (values (codes "transfer-encoding") fields.now) }
{
    let mut coding = Coding::Absent;
    for field in fields {
        coding = coding_after(coding, field);
    }
    coding
}

// Whether it is a length.
fn is_size(value: &[u8]) -> bool
    ensures { result ≡ is_size value.now }
{
    !value.is_empty() && value.len() <= 18 && value.iter().all(|byte| byte.is_ascii_digit())
}

fn size_named(value: &[u8]) -> Size
    ensures { result ≡ size_named value.now }
{
    if is_size(value) {
        Size::Known(number_of(10, value))
    } else {
        Size::Bad
    }
}

fn size_both(size: Size, other: Size) -> Size
    ensures { result ≡ size_both size other }
{
    match (size, other) {
        (Size::Known(n), Size::Known(m)) if n == m => Size::Known(n),
        _ => Size::Bad,
    }
}

// The length with one field more.
fn size_with(size: Size, value: &[u8]) -> Size
    ensures { result ≡ size_with size value.now }
{
    match size {
        Size::Absent => size_named(value),
        size => size_both(size, size_named(value)),
    }
}

// The length with a field more, of whatever name.
fn size_after(size: Size, field: &(Text, Text)) -> Size
    ensures { result ≡ size_after size field.now }
{
    if is_named(b"content-length", field) {
        size_with(size, field.1.as_bytes())
    } else {
        size
    }
}

fn size_of(fields: &[(Text, Text)]) -> Size
    ensures { result ≡ size_of (values (codes "content-length") fields.now) }
{
    let mut size = Size::Absent;
    for field in fields {
        size = size_after(size, field);
    }
    size
}

fn framed(version: Version, coding: Coding, size: Size, other: Body) -> Result<Body, HttpFault>
    ensures { result ≡ framed version coding size other }
{
    match (version, coding, size) {
        (_, Coding::Absent, Size::Absent) => Ok(other),
        (_, Coding::Absent, Size::Known(size)) => Ok(Body::Length(size)),
        (Version::Http11, Coding::Chunked, Size::Absent) => Ok(Body::Chunked),
        _ => Err(HttpFault::Framing),
    }
}

fn fields_body(version: Version, fields: &Fields, other: Body) -> Result<Body, HttpFault>
    ensures { result ≡ fields_body version fields.now other }
{
    let fields = fields.as_slice();
    framed(version, coding_of(fields), size_of(fields), other)
}

/// How the length of a request's body is known. A request without Content-Length and
/// Transfer-Encoding has none.
pub fn request_body(head: &RequestHead) -> Result<Body, HttpFault>
    ensures { result ≡ request_body head.now }
{
    fields_body(head.version, &head.fields, Body::None)
}

fn is_bodiless(method: &[u8], status: u16) -> bool
    ensures { result ≡ is_bodiless method.now status }
{
    method == b"HEAD".as_slice() || status < 200 || status == 204 || status == 304
}

// The lesser version.
fn both(a: Version, b: Version) -> Version
    ensures { result ≡ both a b }
{
    match (a, b) {
        (Version::Http11, Version::Http11) => Version::Http11,
        _ => Version::Http10,
    }
}

/// How the length of a response's body is known, by the method and the version of the request that it
/// answers. The faults of its head, a status below 100 among them, come before the absence of a body.
pub fn response_body(head: &ResponseHead, method: &[u8], asked: Version) -> Result<Body, HttpFault>
    ensures { result ≡ response_body head.now method.now asked }
{
    if head.status.code() < 100 {
        return Err(HttpFault::Framing);
    }
    let version = both(head.version, asked);
    let found = fields_body(version, &head.fields, Body::ToEnd)?;
    if is_bodiless(method, head.status.code()) {
        return Ok(Body::None);
    }
    Ok(found)
}
