// The cookies of a message.

ghost use Rattle.std.specs.Prelude.{◌≡◌, ◌++◌, IfOk, OnOk, map};
ghost use Rattle.std.specs.Option.{option_copied};
ghost use Rattle.http_heads.specs.Fields.{is_named};
ghost use Rattle.http_cookies.specs.MessageCookies.{cookie_called, cookie_field, cookie_text};
ghost use Rattle.http_cookies.specs.MessageCookies.{message_cookies, set_cookie, set_cookies};
ghost use Rattle.http_cookies.specs.MessageCookies.{set_pairs};
ghost use Rattle.http_cookies.specs.MessageCookies.{with_cookie};

use crate::request::{cookies, push_cookies};
use http_heads::Fields;
use px_bytes::{M, Pairs, Text, Texts, same_name};
use std::alloc::Global;

/// Whether a field has the name, whatever the case of its letters.
pub(crate) fn is_named(name: &[u8], field: &(Text, Text)) -> bool
    ensures { result ≡ is_named name.now field.now }
{
    same_name(field.0.as_bytes(), name)
}

/// The cookies of a message's fields: of a request those of its Cookie fields, of a response the first
/// of each Set-Cookie field.
pub fn message_cookies(alloc: Global, response: bool, fields: &[(Text, Text)]) -> M<Pairs>
    ensures { IfOk result (λ found. found ≡ message_cookies response fields.now) }
{
    if response {
        set_cookies(alloc, fields)
    } else {
        cookies(alloc, fields)
    }
}

fn set_cookies(alloc: Global, fields: &[(Text, Text)]) -> M<Pairs>
    ensures { IfOk result (λ found. found ≡ set_cookies fields.now) }
{
    let mut found = Pairs::new(alloc);
    for field in fields {
        push_set_cookie(alloc, &mut found, field)?;
    }
    Ok(found)
}

// Adds the cookie that a field sets.
fn push_set_cookie(alloc: Global, found: &mut Pairs, field: &(Text, Text)) -> M<()>
    ensures { OnOk result (found.new ≡ found.old ++ set_cookie field.now) }
{
    let own = set_pairs(alloc, field)?;
    if let [cookie, ..] = own.as_slice() {
        found.push((cookie.0.copy()?, cookie.1.copy()?))?;
    }
    Ok(())
}

/// The pairs of a field that sets a cookie.
pub(crate) fn set_pairs(alloc: Global, field: &(Text, Text)) -> M<Pairs>
    ensures { IfOk result (λ own. own ≡ set_pairs field.now) }
{
    let mut own = Pairs::new(alloc);
    if is_named(b"set-cookie", field) {
        push_cookies(alloc, &mut own, field.1.as_bytes())?;
    }
    Ok(own)
}

/// The first of a name.
pub fn cookie_called<'a>(name: &[u8], found: &'a [(Text, Text)]) -> Option<&'a (Text, Text)>
    ensures { option_copied result ≡ cookie_called name.now found.now }
{
    found.iter().find(|cookie| name == cookie.0.as_bytes())
}

/// The names of cookies.
pub fn cookie_names(alloc: Global, found: &[(Text, Text)]) -> M<Texts>
    ensures { IfOk result (λ names. names ≡ map (λ c. c.0) found.now) }
{
    let mut names = Texts::new(alloc);
    for cookie in found {
        names.push(cookie.0.copy()?)?;
    }
    Ok(names)
}

/// A cookie as it is written.
pub fn cookie_text(alloc: Global, name: &[u8], value: &[u8]) -> M<Text>
    ensures { IfOk result (λ text. text ≡ cookie_text (name.now, value.now)) }
{
    let mut text = Text::new(alloc, name)?;
    text.push(b"=")?;
    text.push(value)?;
    Ok(text)
}

/// The name and the value of the field that a cookie more makes.
pub fn cookie_field(alloc: Global, response: bool, text: Text, fields: &Fields) -> M<(Text, Text)>
    ensures { IfOk result (λ field. field ≡ cookie_field response text fields.now) }
{
    if response {
        return Ok((Text::new(alloc, b"Set-Cookie")?, text));
    }
    match fields.last(b"cookie") {
        Some(field) => Ok((
            field.0.copy()?,
            with_cookie(alloc, field.1.as_bytes(), text)?,
        )),
        None => Ok((Text::new(alloc, b"Cookie")?, text)),
    }
}

// A further cookie behind a field's value.
fn with_cookie(alloc: Global, value: &[u8], text: Text) -> M<Text>
    ensures { IfOk result (λ t. t ≡ with_cookie value.now text) }
{
    if value.is_empty() {
        return Ok(text);
    }
    let mut more = Text::new(alloc, value)?;
    more.push(b"; ")?;
    more.push(text.as_bytes())?;
    Ok(more)
}
