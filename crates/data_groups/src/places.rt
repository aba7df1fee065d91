// The first place of each key.

ghost use Rattle.std.specs.Prelude.{◌≡◌, ℕ, [], List, OnOk, map};
ghost use Rattle.data_groups.specs.Index.{place_of, with_place};

use px_bytes::M;
use std::alloc::Global;
use std::collections::BTreeMap;
use std::marker::Model;

/// The first place of each key, seen as the keys with their places.
#[derive(Drop)]
pub(crate) struct Places {
    tree: BTreeMap<Vec<u8>, usize>,
}

impl Model for Places {
    ghost Value = { List (List ℕ × ℕ) };

    ghost view = { λ p. map (λ e. (e.0.items, e.1)) p.tree.entries };
}

impl Places {
    /// No places, which takes no memory.
    pub(crate) fn new(alloc: Global) -> Places
        ensures { result ≡ [] }
    {
        Places {
            tree: BTreeMap::new(alloc),
        }
    }

    /// The first place of a key.
    pub(crate) fn find(&self, bytes: &[u8]) -> Option<usize>
        ensures { result ≡ place_of self.now bytes.now }
    {
        self.tree.get(bytes).copied()
    }

    /// Adds a place of a key, which is kept where it is the key's first.
    pub(crate) fn add(&mut self, bytes: Vec<u8>, at: usize) -> M<()>
        ensures { OnOk result ((asked : List ℕ) → place_of self.new asked
            ≡ with_place self.old bytes.items at asked) }
    {
        if self.find(&bytes).is_none() {
            self.tree.insert(bytes, at)?;
        }
        Ok(())
    }
}
