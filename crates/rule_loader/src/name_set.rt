// The names of procedures.

ghost use Rattle.std.specs.Prelude.{◌≡◌, ℕ, [], List, IfOk, OnOk, map, not, ◌||◌};
ghost use Rattle.std.specs.Str.{bytes_eq};
ghost use Rattle.rule_loader.specs.Names.{has_name};

use px_bytes::M;
use std::alloc::Global;
use std::collections::BTreeSet;
use std::marker::Model;

/// Names, each once, in the order of their bytes.
#[derive(Drop)]
pub(crate) struct NameSet {
    set: BTreeSet<Vec<u8>>,
}

impl Model for NameSet {
    ghost Value = { List (List ℕ) };

    ghost view = { λ n. map (λ k. k.items) n.set.keys };
}

impl NameSet {
    /// No names, which takes no memory.
    pub(crate) fn new(alloc: Global) -> NameSet
        ensures { result ≡ [] }
    {
        NameSet {
            set: BTreeSet::new(alloc),
        }
    }

    /// Adds a name; tells whether it is a new one.
    pub(crate) fn insert(&mut self, name: Vec<u8>) -> M<bool>
        ensures is_new { IfOk result (λ b. b ≡ not (has_name name.items self.old)) }
        ensures names { OnOk result ((asked : List ℕ)
            → has_name asked self.new ≡ (has_name asked self.old || bytes_eq asked name.items)) }
    {
        let is_new = self.set.insert(name)?;
        Ok(is_new)
    }
}
