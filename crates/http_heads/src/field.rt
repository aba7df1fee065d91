// One field of a head.

ghost use Rattle.std.specs.Prelude.{◌≡◌, true, Bool, ℕ, List, option_map};
ghost use Rattle.http_heads.specs.Fields.{field_made, is_field, is_value};

use httparse::{is_header_value, is_token};
use px_bytes::Text;
use std::marker::Model;

/// A field: a token as its name, and a value without a control byte but the tab (RFC 9110, 5.1, 5.5).
/// White space around a value is no part of it for who reads the head.
#[derive(Drop)]
pub struct Field {
    name: Text,
    value: Text,
}

impl Model for Field {
    ghost use Rattle.std.specs.Prelude.{◌≡◌, ℕ, List, true};
    ghost use Rattle.http_heads.specs.Fields.{is_field};

    ghost Value = { List ℕ × List ℕ };

    ghost view = { λ f. (f.name, f.value) };

    ghost invariant = { λ f. is_field (f.name, f.value) ≡ true };
}

/// Whether it may be the value of a field.
pub(crate) fn is_value(value: &[u8]) -> bool
    ensures { result ≡ is_value value.now }
{
    is_header_value(value)
}

/// Whether it may be the name and the value of a field.
pub fn is_field(name: &[u8], value: &[u8]) -> bool
    ensures { result ≡ is_field (name.now, value.now) }
{
    is_token(name) && is_value(value)
}

impl Field {
    /// The field of this name and value; none where no head can have it.
    pub fn new(name: Text, value: Text) -> Option<Field>
        ensures { result ≡ field_made (name, value) }
    {
        if is_field(name.as_bytes(), value.as_bytes()) {
            return Some(Field { name, value });
        }
        None
    }

    pub fn name(&self) -> &[u8]
        ensures { result.now ≡ self.now.0 }
    {
        self.name.as_bytes()
    }

    pub(crate) fn into_pair(self) -> (Text, Text)
        ensures pair { result ≡ self }
        ensures is_field { is_field result ≡ true }
    {
        (self.name, self.value)
    }
}
