// Words in UTF-8.

ghost use Rattle.std.specs.Prelude.{◌≡◌, ℕ, List, Some, None, if◌then◌else◌, string_bytes};
ghost use Rattle.std.specs.Str.{is_utf8};
ghost use Rattle.toml.specs.Data.{string};
ghost use Rattle.toml.specs.View.{view};

use std::marker::Model;
use toml::Value;

/// Bytes that are UTF-8.
#[derive(Drop)]
pub(crate) struct Word {
    text: String,
}

impl Model for Word {
    ghost Value = { List ℕ };

    ghost view = { λ w. string_bytes w.text };
}

impl Word {
    /// These bytes, where they are UTF-8.
    pub fn new(bytes: Vec<u8>) -> Option<Word>
        ensures { result ≡ (if is_utf8 bytes.items then Some bytes.items else None) }
    {
        match String::from_utf8(bytes) {
            Ok(text) => Some(Word { text }),
            Err(_) => None,
        }
    }

    pub fn as_bytes(&self) -> &[u8]
        ensures { result.now ≡ self.now }
    {
        self.text.as_bytes()
    }

    pub fn into_value(self) -> Value
        ensures { view result ≡ string self }
    {
        Value::String(self.text)
    }
}
