// What the fields of a message say of its connection.

ghost use Rattle.std.specs.Prelude.{◌≡◌};
ghost use Rattle.http_heads.specs.Fields.{is_named};
ghost use Rattle.http_heads.specs.Passed.{has_option};
ghost use Rattle.http_messages.specs.Connections.{asks_continue, expects, has_body, is_later};
ghost use Rattle.http_messages.specs.Connections.{names_option, persists};

use http_frames::Body;
use http_heads::{Fields, Version};
use px_bytes::{Text, same_name, trimmed};

// Whether a field has the name, whatever the case of its letters.
fn is_named(name: &[u8], field: &(Text, Text)) -> bool
    ensures { result ≡ is_named name.now field.now }
{
    same_name(field.0.as_bytes(), name)
}

fn has_option(name: &[u8], value: &[u8]) -> bool
    ensures { result ≡ has_option name.now value.now }
{
    value
        .split(|byte| *byte == b',')
        .any(|option| same_name(trimmed(option), name))
}

// Whether one of the Connection fields has the option.
fn names_option(option: &[u8], fields: &Fields) -> bool
    ensures { result ≡ names_option option.now fields.now }
{
    fields.as_slice().iter().any(|field| is_named(b"connection", field)
        && has_option(option, field.1.as_bytes()))
}

fn is_later(version: Version) -> bool
    ensures { result ≡ is_later version }
{
    matches!(version, Version::Http11)
}

/// Whether the connection of a message persists by its head as it came.
pub(crate) fn persists(version: Version, fields: &Fields) -> bool
    ensures { result ≡ persists version fields.now }
{
    !names_option(b"close", fields) && (is_later(version) || names_option(b"keep-alive", fields))
}

fn has_body(body: Body) -> bool
    ensures { result ≡ has_body body }
{
    !matches!(body, Body::None)
}

/// Whether a request's fields ask to be told to go on.
pub(crate) fn asks_continue(fields: &Fields) -> bool
    ensures { result ≡ asks_continue fields.now }
{
    fields.as_slice().iter().any(|field| {
        is_named(b"expect", field) && same_name(field.1.as_bytes(), b"100-continue")
    })
}

/// Whether its client waits for that, by whether they ask.
pub(crate) fn expects(version: Version, body: Body, asks: bool) -> bool
    ensures { result ≡ expects version body asks }
{
    is_later(version) && has_body(body) && asks
}
