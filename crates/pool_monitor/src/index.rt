// The first places of texts.

ghost use Rattle.std.specs.Prelude.{◌≡◌, List, ℕ, IfOk, OnOk, [], Some, option_map};
ghost use Rattle.std.specs.Option.{option_copied};
ghost use Rattle.toml.specs.View.{array_view, view};
ghost use Rattle.config.specs.Texts.{first_place, place_of, text_in, with_text};
ghost use Rattle.pool_monitor.specs.Documents.{pool_place};
ghost use Rattle.pool_monitor.specs.Keys.{pool_key};

use crate::keys::POOL;
use crate::table::text_at;
use config::PoolSettings;
use px_bytes::M;
use std::alloc::Global;
use std::collections::BTreeMap;
use std::marker::Model;
use toml::Value;
use toml::value::Array;

/// Texts with the places where they stand first, seen as pairs of both.
#[derive(Drop)]
pub(crate) struct Index {
    tree: BTreeMap<Vec<u8>, usize>,
}

impl Model for Index {
    ghost use Rattle.std.specs.Prelude.{List, ℕ, map};

    ghost Value = { List (List ℕ × ℕ) };

    ghost view = { λ p. map (λ e. (e.0.items, e.1)) p.tree.entries };
}

impl Index {
    fn new(alloc: Global) -> Index
        ensures { result ≡ [] }
    {
        Index {
            tree: BTreeMap::new(alloc),
        }
    }

    /// The first place of a text.
    pub(crate) fn find(&self, text: &[u8]) -> Option<usize>
        ensures { result ≡ place_of self.now text.now }
    {
        self.tree.get(text).copied()
    }

    // Adds a place of a text, which is kept where it is the first.
    fn add(&mut self, text: Vec<u8>, at: usize) -> M<()>
        ensures { OnOk result ((asked : List ℕ) → place_of self.new asked
            ≡ with_text self.old (Some text.items) at asked) }
    {
        if self.find(&text).is_none() {
            self.tree.insert(text, at)?;
        }
        Ok(())
    }

    // Adds the pool that an item names, if it names one.
    fn item(&mut self, alloc: Global, value: &Value, at: usize) -> M<()>
        ensures { OnOk result ((asked : List ℕ) → place_of self.new asked
            ≡ with_text self.old (text_in (Some pool_key.name) (view value.now)) at asked) }
    {
        match pool_in(value) {
            Some(text) => self.add(Vec::from_slice(alloc, text.as_bytes())?, at),
            None => Ok(()),
        }
    }
}

// The pool that an item names.
fn pool_in(value: &Value) -> Option<&str>
    ensures { option_copied result ≡ text_in (Some pool_key.name) (view value.now) }
{
    match value.as_table() {
        Some(table) => text_at(table, POOL.name),
        None => None,
    }
}

/// The first places of the pools that the items of an array name.
pub(crate) fn named_pools(alloc: Global, values: &Array) -> M<Index>
    ensures { IfOk result (λ index. place_of index
        ≡ first_place (Some pool_key.name) (array_view values.now)) }
{
    let mut index = Index::new(alloc);
    let mut at = 0;
    for value in values {
        index.item(alloc, value, at)?;
        at += 1;
    }
    Ok(index)
}

/// The first places of the names of pools.
pub(crate) fn pool_places(alloc: Global, pools: &[PoolSettings]) -> M<Index>
    ensures { IfOk result (λ index. place_of index ≡ pool_place pools.now) }
{
    let mut index = Index::new(alloc);
    for (at, pool) in pools.iter().enumerate() {
        index.add(Vec::from_slice(alloc, pool.name.as_bytes())?, at)?;
    }
    Ok(index)
}
