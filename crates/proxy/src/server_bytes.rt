// The bytes that the servers of a connection took.

ghost use Rattle.std.specs.Prelude.{◌≡◌, ℕ, List, [], ◌∷◌, ◌++◌, OnOk};
ghost use Rattle.proxy.specs.ServerBytes.{on_last};

use px_bytes::{M, Text};
use std::alloc::Global;
use std::marker::Model;

/// What each server connection of a connection took, in the order in which they were made.
#[derive(Drop)]
pub struct ServerBytes {
    items: Vec<Text>,
}

impl Model for ServerBytes {
    ghost Value = { List (List ℕ) };

    ghost view = { λ s. s.items.items };
}

impl ServerBytes {
    /// None was made yet.
    pub fn new(alloc: Global) -> ServerBytes
        ensures { result ≡ [] }
    {
        ServerBytes {
            items: Vec::new(alloc),
        }
    }

    pub fn as_slice(&self) -> &[Text]
        ensures { result.now ≡ self.now }
    {
        &self.items
    }

    /// One is made, and took nothing yet.
    pub fn begin(&mut self, alloc: Global) -> M<()>
        ensures { OnOk result (self.new ≡ self.old ++ [] ∷ []) }
    {
        self.items.push(Text::empty(alloc))?;
        Ok(())
    }

    /// The last one took these bytes; where none was made, nothing changes.
    pub fn add(&mut self, bytes: &[u8]) -> M<()>
        ensures { OnOk result (self.new ≡ on_last (λ b. b ++ bytes.now) self.old) }
    {
        let len = self.items.len();
        if len == 0 {
            return Ok(());
        }
        self.items[len - 1].push(bytes)
    }
}
