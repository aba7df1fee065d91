// A few bytes, copied out of texts.
ghost use Rattle.std.specs.Prelude.{[], List, length, take, ℕ, ◌++◌, ◌≡◌, ◌≤◌};
ghost use Rattle.std.specs.Bool.{OnFalse, OnTrue};

use std::marker::Model;

/// As many bytes as are copied.
const MOST: usize = 64;

/// Bytes of texts that may change meanwhile, or that are joined.
#[derive(Drop)]
pub(crate) struct ShortCopy {
    bytes: [u8; MOST],
    len: usize,
}

impl Model for ShortCopy {
    ghost Value = { List ℕ };

    ghost view = { λ s. take s.len s.bytes };

    ghost invariant = { λ s. s.len ≤ 64 };
}

impl ShortCopy {
    /// No bytes.
    pub(crate) fn new() -> ShortCopy
        ensures { result ≡ [] }
    {
        ShortCopy {
            bytes: [0; MOST],
            len: 0,
        }
    }

    /// Adds bytes at the end, where there is room: whether it was done.
    pub(crate) fn add(&mut self, more: &[u8]) -> bool
        ensures added { OnTrue result (self.new ≡ self.old ++ more.now) }
        ensures few { OnTrue result (length self.new ≤ 64) }
        ensures unchanged { OnFalse result (self.new ≡ self.old) }
    {
        if more.len() > MOST - self.len {
            return false;
        }
        let end = self.len + more.len();
        self.bytes[self.len..end].copy_from_slice(more);
        self.len = end;
        true
    }

    pub(crate) fn as_bytes(&self) -> &[u8]
        ensures bytes { result.now ≡ self.now }
        ensures few { length result.now ≤ 64 }
    {
        &self.bytes[..self.len]
    }
}
