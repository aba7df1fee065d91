// The token that a text begins with.

ghost use Rattle.std.specs.Prelude.{◌≡◌, ◌+◌, ◌≤◌, IfOk, length};
ghost use Rattle.tmsh_read.specs.Quoted.{unquoted};
ghost use Rattle.tmsh_read.specs.Tokens as spec;
ghost use Rattle.tmsh_read.specs.Tokens.{is_mark, run_len};

use crate::braced::braced_len;
use crate::gap::{Gap, gap_len};
use crate::quoted::{Inside, Quote, unquoted};
use crate::token::{Found, Token};
use crate::word::Word;
use px_bytes::{M, is_space};
use std::alloc::Global;

/// Whether a byte ends a run: white space, a brace or a quote.
pub fn is_mark(byte: u8) -> bool
    ensures { result ≡ is_mark byte }
{
    is_space(byte) || matches!(byte, b'{' | b'}' | b'"')
}

// How many bytes stand before the first that no run has.
fn run_len(bytes: &[u8]) -> usize
    ensures len { result ≡ run_len bytes.now }
    ensures within { result ≤ length bytes.now }
{
    let mut len = 0;
    for byte in bytes {
        if is_mark(*byte) {
            return len;
        }
        len += 1;
    }
    len
}

fn here(token: Token, size: usize) -> Found
    ensures { result ≡ spec.here token size }
{
    Found {
        token,
        start: 0,
        end: size,
    }
}

fn run_token(bytes: Vec<u8>) -> Token
    ensures { result ≡ spec.run_token bytes.items }
{
    match Word::new(bytes) {
        Some(word) => Token::Run(word),
        None => Token::Broken,
    }
}

fn quoted_token(bytes: Vec<u8>) -> Token
    ensures { result ≡ spec.quoted_token bytes.items }
{
    match Word::new(bytes) {
        Some(word) => Token::Quoted(word),
        None => Token::Broken,
    }
}

fn braced_token(bytes: Vec<u8>) -> Token
    ensures { result ≡ spec.braced_token bytes.items }
{
    match Word::new(bytes) {
        Some(word) => Token::Braced(word),
        None => Token::Broken,
    }
}

fn quoted_found(alloc: Global, bytes: &[u8]) -> M<Found>
    ensures found { IfOk result (λ f. f ≡ spec.quoted_found (unquoted Quote.Plain bytes.now)) }
    ensures within { IfOk result (λ f. f.end ≤ length bytes.now + 1) }
{
    match unquoted(alloc, bytes)? {
        Some(Inside { value, size }) => Ok(here(quoted_token(value), size + 1)),
        None => Ok(here(Token::Broken, 0)),
    }
}

fn run_found(alloc: Global, bytes: &[u8]) -> M<Found>
    ensures found { IfOk result (λ f. f ≡ spec.run_found bytes.now) }
    ensures within { IfOk result (λ f. f.end ≤ length bytes.now) }
{
    let len = run_len(bytes);
    if len == 0 {
        return Ok(here(Token::Broken, 0));
    }
    let run = Vec::from_slice(alloc, &bytes[..len])?;
    Ok(here(run_token(run), len))
}

// The token that these bytes begin with, before which nothing stands.
fn token_at(alloc: Global, bytes: &[u8]) -> M<Found>
    ensures found { IfOk result (λ f. f ≡ spec.token_at bytes.now) }
    ensures within { IfOk result (λ f. f.end ≤ length bytes.now) }
{
    match bytes {
        [] => Ok(here(Token::End, 0)),
        [b'{', ..] => Ok(here(Token::Open, 1)),
        [b'}', ..] => Ok(here(Token::Close, 1)),
        [b'"', more @ ..] => quoted_found(alloc, more),
        _ => run_found(alloc, bytes),
    }
}

// The first token of these bytes, of which the first stands so in its line.
fn plain_found(alloc: Global, gap: Gap, bytes: &[u8]) -> M<Found>
    ensures found { IfOk result (λ f. f ≡ spec.plain_found gap bytes.now) }
    ensures within { IfOk result (λ f. (f.start ≤ length bytes.now) × (f.end ≤ length bytes.now)) }
{
    let before = gap_len(gap, bytes);
    let Found { token, end, .. } = token_at(alloc, &bytes[before..])?;
    Ok(Found {
        token,
        start: before,
        end: before + end,
    })
}

// The text of a rule, before which a blank and a brace stand.
fn braced_found(alloc: Global, text: &[u8]) -> M<Found>
    ensures found { IfOk result (λ f. f ≡ spec.braced_found text.now) }
    ensures within { IfOk result (λ f. (f.start ≤ 1) × (f.end ≤ length text.now + 2)) }
{
    match braced_len(text) {
        Some(len) => {
            let bytes = Vec::from_slice(alloc, &text[..len])?;
            Ok(Found {
                token: braced_token(bytes),
                start: 1,
                end: len + 3,
            })
        }
        None => Ok(Found {
            token: Token::Broken,
            start: 1,
            end: 1,
        }),
    }
}

// A space or a tab.
fn is_blank(byte: u8) -> bool
    ensures { result ≡ spec.is_blank byte }
{
    byte == b' ' || byte == b'\t'
}

/// The first token of these bytes: the text of a rule where that may stand here and a blank and a
/// brace do.
pub(crate) fn found_in(alloc: Global, wants_text: bool, gap: Gap, bytes: &[u8]) -> M<Found>
    ensures found { IfOk result (λ f. f ≡ spec.found_in wants_text gap bytes.now) }
    ensures within { IfOk result (λ f. (f.start ≤ length bytes.now) × (f.end ≤ length bytes.now)) }
{
    match bytes {
        [blank, b'{', text @ ..] if wants_text && is_blank(*blank) => braced_found(alloc, text),
        _ => plain_found(alloc, gap, bytes),
    }
}
