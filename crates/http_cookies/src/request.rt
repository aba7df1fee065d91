// The cookies of a request.

ghost use Rattle.std.specs.Prelude.{◌≡◌, ◌++◌, IfOk, OnOk, map};
ghost use Rattle.http_cookies.specs.Cookies.{cookie_in, cookies, cookies_in, cookies_of};
ghost use Rattle.http_cookies.specs.Cookies.{is_cookie_field, pieces};

use crate::blanks::without_blanks;
use crate::parts::around;
use px_bytes::{M, Pairs, Text, same_name};
use std::alloc::{AllocError, Global};

/// The names and values of all cookies, in the order in which they stand in the fields, each of
/// which is a name and a value.
pub fn cookies(alloc: Global, fields: &[(Text, Text)]) -> M<Pairs>
    ensures { IfOk result (λ pairs. pairs ≡ cookies fields.now) }
{
    let mut pairs = Pairs::new(alloc);
    for field in fields {
        if is_cookie_field(field.0.as_bytes()) {
            push_cookies(alloc, &mut pairs, field.1.as_bytes())?;
        }
    }
    Ok(pairs)
}

fn is_cookie_field(name: &[u8]) -> bool
    ensures { result ≡ is_cookie_field name.now }
{
    same_name(name, b"cookie")
}

/// Adds the cookies of the value of one field.
pub(crate) fn push_cookies(alloc: Global, pairs: &mut Pairs, value: &[u8]) -> M<()>
    ensures { OnOk result (pairs.new ≡ pairs.old ++ cookies_in value.now) }
{
    let pieces = pieces(alloc, value)?;
    push_pieces(alloc, pairs, &pieces)
}

fn push_pieces(alloc: Global, pairs: &mut Pairs, pieces: &[&[u8]]) -> M<()>
    ensures { OnOk result (pairs.new ≡ pairs.old ++ cookies_of (map (λ p. p.now) pieces.now)) }
{
    for piece in pieces {
        push_cookie(alloc, pairs, without_blanks(piece))?;
    }
    Ok(())
}

fn pieces(alloc: Global, value: &[u8]) -> Result<Vec<&[u8]>, AllocError>
    ensures { IfOk result (λ found. map (λ p. p.now) found.items ≡ pieces value.now) }
{
    value.split(|byte| *byte == b';').collect(alloc)
}

// Adds the cookie that a piece is, where it isn't empty.
fn push_cookie(alloc: Global, pairs: &mut Pairs, piece: &[u8]) -> M<()>
    ensures { OnOk result (pairs.new ≡ pairs.old ++ cookie_in piece.now) }
{
    if piece.is_empty() {
        return Ok(());
    }
    let (name, value) = around(b'=', piece);
    pairs.push((Text::new(alloc, name)?, Text::new(alloc, value)?))
}
