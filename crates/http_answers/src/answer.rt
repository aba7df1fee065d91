// An answer, and how its head is written.

ghost use Rattle.std.specs.Prelude.{◌≡◌, ◌++◌, ◌<◌, ◌≤◌, IfOk, OnOk, length, nat_le};
ghost use Rattle.std.specs.Fmt.{decimal};
ghost use Rattle.http_heads.specs.Written.{lines_of, written_response};
ghost use Rattle.http_answers.specs.Answers.{answer_fields, answer_head, closes_text};
ghost use Rattle.http_answers.specs.Answers.{connection_field};
ghost use Rattle.http_answers.specs.Answers.{gives_close, is_bodiless, length_field};
ghost use Rattle.http_answers.specs.Answers.{reason_of, server_field};
ghost use Rattle.http_answers.specs.Seen.{own_fields, seen, status_line};

use crate::given::{gives_close, put_given};
use crate::reasons::reason_of;
use http_heads::{StatusCode, Version, put_field, put_status, put_version};
use px_bytes::{M, Text};
use std::alloc::Global;

/// What an answer is made of: its status line, the names and values that are given, whether it says
/// `Server: BigIP`, whether the client's connection closes behind it, and its content.
#[derive(Clone, Copy)]
pub struct Answer<'a> {
    pub version: Version,
    pub code: u16,
    pub given: &'a [Text],
    pub server: bool,
    pub closes: bool,
    pub content: &'a [u8],
}

/// Whether an answer of a code has neither content nor length.
pub(crate) fn is_bodiless(code: u16) -> bool
    ensures { result ≡ is_bodiless code }
{
    code == 204 || code == 304
}

/// Writes the head of an answer; tells whether it has at most 100 fields.
pub(crate) fn put_head(alloc: Global, out: &mut Vec<u8>, answer: &Answer<'_>) -> M<bool>
    requires { answer.now.code < 1000 }
    ensures text { OnOk result (out.new.items
        ≡ out.old.items ++ written_response (answer_head (seen answer.now))) }
    ensures few { IfOk result (λ few. few ≡ nat_le (length (answer_fields (seen answer.now))) 100) }
{
    put_status_line(out, answer)?;
    let given = put_given(out, answer.given)?;
    let own = put_own(alloc, out, answer)?;
    out.extend_from_slice(b"\r\n")?;
    Ok(given <= 100 - own)
}

fn put_status_line(out: &mut Vec<u8>, answer: &Answer<'_>) -> M<()>
    requires { answer.now.code < 1000 }
    ensures { OnOk result (out.new.items
        ≡ out.old.items ++ status_line answer.now.version answer.now.code) }
{
    put_version(out, answer.version)?;
    out.extend_from_slice(b" ")?;
    let status = StatusCode::new(answer.code);
    put_status(out, &status)?;
    out.extend_from_slice(b" ")?;
    out.extend_from_slice(reason_of(answer.code))?;
    out.extend_from_slice(b"\r\n")?;
    Ok(())
}

// Writes the fields that an answer has of its own; tells how many these are.
fn put_own(alloc: Global, out: &mut Vec<u8>, answer: &Answer<'_>) -> M<usize>
    ensures text { OnOk result (out.new.items ≡ out.old.items ++ lines_of (own_fields answer.now)) }
    ensures count { IfOk result (λ own. (own ≡ length (own_fields answer.now)) × (own ≤ 3)) }
{
    let server = put_server(out, answer.server)?;
    let connection = put_connection(out, gives_close(answer.given), answer.closes)?;
    let length = put_length(alloc, out, is_bodiless(answer.code), answer.content.len())?;
    Ok(server + connection + length)
}

fn put_server(out: &mut Vec<u8>, server: bool) -> M<usize>
    ensures text { OnOk result (out.new.items ≡ out.old.items ++ lines_of (server_field server)) }
    ensures count { IfOk result (λ n. (n ≡ length (server_field server)) × (n ≤ 1)) }
{
    if !server {
        return Ok(0);
    }
    put_field(out, b"Server", b"BigIP")?;
    Ok(1)
}

fn closes_text(closes: bool) -> &'static [u8]
    ensures { result.now ≡ closes_text closes }
{
    if closes { b"close" } else { b"Keep-Alive" }
}

fn put_connection(out: &mut Vec<u8>, given: bool, closes: bool) -> M<usize>
    ensures text { OnOk result (out.new.items
        ≡ out.old.items ++ lines_of (connection_field given closes)) }
    ensures count { IfOk result (λ n. (n ≡ length (connection_field given closes)) × (n ≤ 1)) }
{
    if given {
        return Ok(0);
    }
    put_field(out, b"Connection", closes_text(closes))?;
    Ok(1)
}

fn number_text(alloc: Global, number: usize) -> M<Text>
    ensures { IfOk result (λ text. text ≡ decimal number) }
{
    Ok(Text::from_vec(format!(in alloc; "{number}")?.into_bytes()))
}

fn put_length(alloc: Global, out: &mut Vec<u8>, bodiless: bool, size: usize) -> M<usize>
    ensures text { OnOk result (out.new.items
        ≡ out.old.items ++ lines_of (length_field bodiless size)) }
    ensures count { IfOk result (λ n. (n ≡ length (length_field bodiless size)) × (n ≤ 1)) }
{
    if bodiless {
        return Ok(0);
    }
    let digits = number_text(alloc, size)?;
    put_field(out, b"Content-Length", digits.as_bytes())?;
    Ok(1)
}
