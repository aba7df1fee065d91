// The fields of a message without the cookies of a name.

ghost use Rattle.std.specs.Prelude.{◌≡◌, [], ◌∷◌, ◌++◌, IfOk, None, OnOk};
ghost use Rattle.http_cookies.specs.MessageCookies.{cookie_left, field_left, has_called};
ghost use Rattle.http_cookies.specs.MessageCookies.{joined_onto, joined_with, others};
ghost use Rattle.http_cookies.specs.MessageCookies.{request_left};
ghost use Rattle.http_cookies.specs.MessageCookies.{response_left, without_cookie};

use crate::message::{cookie_text, is_named, set_pairs};
use crate::request::push_cookies;
use px_bytes::{M, Pairs, Text};
use std::alloc::Global;

/// The fields of a request or a response without the cookies of a name. A Cookie field of which none is
/// left goes; the other cookies of one that loses some stand behind `; `.
pub fn without_cookie(
    alloc: Global,
    response: bool,
    name: &[u8],
    fields: &[(Text, Text)],
) -> M<Vec<(Text, Text)>>
    ensures { IfOk result (λ left. left.items ≡ without_cookie response name.now fields.now) }
{
    let mut left = Vec::new(alloc);
    for field in fields {
        push_left(alloc, response, name, field, &mut left)?;
    }
    Ok(left)
}

// Adds what is left of a field.
fn push_left(
    alloc: Global,
    response: bool,
    name: &[u8],
    field: &(Text, Text),
    left: &mut Vec<(Text, Text)>,
) -> M<()>
    ensures { OnOk result (left.new.items ≡ left.old.items ++ field_left response name.now field.now) }
{
    if response {
        push_response_left(alloc, name, field, left)
    } else {
        push_request_left(alloc, name, field, left)
    }
}

fn push_response_left(
    alloc: Global,
    name: &[u8],
    field: &(Text, Text),
    left: &mut Vec<(Text, Text)>,
) -> M<()>
    ensures { OnOk result (left.new.items ≡ left.old.items ++ response_left name.now field.now) }
{
    let own = set_pairs(alloc, field)?;
    match own.as_slice() {
        [cookie, ..] if name == cookie.0.as_bytes() => Ok(()),
        _ => push_same(field, left),
    }
}

fn push_request_left(
    alloc: Global,
    name: &[u8],
    field: &(Text, Text),
    left: &mut Vec<(Text, Text)>,
) -> M<()>
    ensures { OnOk result (left.new.items ≡ left.old.items ++ request_left name.now field.now) }
{
    if !is_named(b"cookie", field) {
        return push_same(field, left);
    }
    let mut found = Pairs::new(alloc);
    push_cookies(alloc, &mut found, field.1.as_bytes())?;
    push_cookie_left(alloc, name, field, found.as_slice(), left)
}

// Adds a Cookie field, which has these cookies, without those of a name.
fn push_cookie_left(
    alloc: Global,
    name: &[u8],
    field: &(Text, Text),
    found: &[(Text, Text)],
    left: &mut Vec<(Text, Text)>,
) -> M<()>
    ensures { OnOk result (left.new.items
        ≡ left.old.items ++ cookie_left name.now field.now found.now) }
{
    if !has_called(name, found) {
        return push_same(field, left);
    }
    if let Some(value) = others(alloc, name, found)? {
        left.push((field.0.copy()?, value))?;
    }
    Ok(())
}

fn has_called(name: &[u8], found: &[(Text, Text)]) -> bool
    ensures { result ≡ has_called name.now found.now }
{
    found.iter().any(|cookie| name == cookie.0.as_bytes())
}

fn push_same(field: &(Text, Text), left: &mut Vec<(Text, Text)>) -> M<()>
    ensures { OnOk result (left.new.items ≡ left.old.items ++ field.now ∷ []) }
{
    left.push((field.0.copy()?, field.1.copy()?))?;
    Ok(())
}

// The cookies that don't have the name, as they are written; none where all have it.
fn others(alloc: Global, name: &[u8], found: &[(Text, Text)]) -> M<Option<Text>>
    ensures { IfOk result (λ value. value ≡ joined_onto None (others name.now found.now)) }
{
    let mut value = None;
    for cookie in found {
        if name != cookie.0.as_bytes() {
            value = Some(joined_with(alloc, value, cookie)?);
        }
    }
    Ok(value)
}

// A further cookie behind those that are there.
fn joined_with(alloc: Global, value: Option<Text>, cookie: &(Text, Text)) -> M<Text>
    ensures { IfOk result (λ text. text ≡ joined_with value cookie.now) }
{
    let text = cookie_text(alloc, cookie.0.as_bytes(), cookie.1.as_bytes())?;
    match value {
        Some(mut value) => {
            value.push(b"; ")?;
            value.push(text.as_bytes())?;
            Ok(value)
        }
        None => Ok(text),
    }
}
