// The target of a request in absolute form.

ghost use Rattle.std.specs.Prelude.{◌≡◌, ◌≤◌, IfOk, IfSome, MatchBool, length, drop, true, ⊤};
ghost use Rattle.std.specs.Char.{is_ascii_alphabetic};
ghost use Rattle.http_heads.specs.Hosts.{is_authority};
ghost use Rattle.http_heads.specs.Targets.{authority_at, authority_length, authority_of};
ghost use Rattle.http_heads.specs.Targets.{begins_apart, begins_by, behind_scheme, is_absolute};
ghost use Rattle.http_heads.specs.Targets.{is_colon, is_http, is_scheme_byte, path_of, scheme_length};

use crate::host::is_authority;
use px_bytes::{HttpFault, M, Text, same_name};
use std::alloc::Global;

fn is_scheme_byte(byte: u8) -> bool
    ensures { result ≡ is_scheme_byte byte }
{
    byte.is_ascii_alphanumeric() || byte == b'+' || byte == b'-' || byte == b'.'
}

// How many bytes at the front may be a scheme.
fn scheme_length(target: &[u8]) -> usize
    ensures value { result ≡ scheme_length target.now }
    ensures within { result ≤ length target.now }
{
    target
        .iter()
        .position(|byte| !is_scheme_byte(*byte))
        .unwrap_or(target.len())
}

/// How many bytes stand before a `/` or a `?`.
pub(crate) fn authority_length(text: &[u8]) -> usize
    ensures value { result ≡ authority_length text.now }
    ensures within { result ≤ length text.now }
{
    text.iter()
        .position(|byte| *byte == b'/' || *byte == b'?')
        .unwrap_or(text.len())
}

fn begins_alphabetic(target: &[u8]) -> bool
    ensures { result ≡ begins_by is_ascii_alphabetic target.now }
{
    match target {
        [byte, ..] => byte.is_ascii_alphabetic(),
        [] => false,
    }
}

fn begins_colon(text: &[u8]) -> bool
    ensures { result ≡ begins_by is_colon text.now }
{
    match text {
        [byte, ..] => *byte == b':',
        [] => false,
    }
}

// Whether `://` stands at the front.
fn begins_apart(text: &[u8]) -> bool
    ensures value { result ≡ begins_apart text.now }
    ensures long { MatchBool result (3 ≤ length text.now) ⊤ }
{
    match text {
        [b':', b'/', b'/', ..] => true,
        _ => false,
    }
}

fn is_absolute(target: &[u8]) -> bool
    ensures { result ≡ is_absolute target.now }
{
    begins_alphabetic(target) && begins_colon(&target[scheme_length(target)..])
}

fn is_http(scheme: &[u8]) -> bool
    ensures { result ≡ is_http scheme.now }
{
    same_name(scheme, b"http") || same_name(scheme, b"https")
}

// Whether an authority stands at the front.
fn has_authority(text: &[u8]) -> bool
    ensures { result ≡ is_authority (authority_of text.now) }
{
    is_authority(&text[..authority_length(text)])
}

// The place behind a scheme of so many bytes.
fn behind_scheme(size: usize, target: &[u8]) -> Result<Option<usize>, HttpFault>
    requires inside { size ≤ length target.now }
    ensures value { result ≡ behind_scheme size target.now }
    ensures within { IfOk result (λ at. IfSome at (λ from. from ≤ length target.now)) }
    ensures good { IfOk result (λ at. IfSome at
        (λ from. is_authority (authority_of (drop from target.now)) ≡ true)) }
{
    if is_http(&target[..size])
        && begins_apart(&target[size..])
        && has_authority(&target[size + 3..])
    {
        return Ok(Some(size + 3));
    }
    Err(HttpFault::BadHead)
}

/// The place of the authority in the target of a request, where that is absolute; a bad head where
/// it has another scheme, or no authority that a Host could be.
pub(crate) fn authority_at(method: &[u8], target: &[u8]) -> Result<Option<usize>, HttpFault>
    ensures value { result ≡ authority_at method.now target.now }
    ensures within { IfOk result (λ at. IfSome at (λ from. from ≤ length target.now)) }
    ensures good { IfOk result (λ at. IfSome at
        (λ from. is_authority (authority_of (drop from target.now)) ≡ true)) }
{
    if method == b"CONNECT".as_slice() || !is_absolute(target) {
        return Ok(None);
    }
    behind_scheme(scheme_length(target), target)
}

/// What a server is asked for where this stood behind the authority.
pub(crate) fn path_of(alloc: Global, method: &[u8], rest: &[u8]) -> M<Text>
    ensures { IfOk result (λ t. t ≡ path_of method.now rest.now) }
{
    match rest {
        [b'/', ..] => Text::new(alloc, rest),
        [] if method == b"OPTIONS".as_slice() => Text::new(alloc, b"*"),
        _ => {
            let mut text = Text::new(alloc, b"/")?;
            text.push(rest)?;
            Ok(text)
        }
    }
}
