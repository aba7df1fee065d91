// The first places of texts in an array.

ghost use Rattle.std.specs.Prelude.{◌≡◌, List, ℕ, IfOk, OnOk, [], Some, map, option_map};
ghost use Rattle.std.specs.Option.{option_copied};
ghost use Rattle.toml.specs.View.{array_view, view};
ghost use Rattle.config.specs.Texts.{first_place, place_of, text_in, with_text};

use crate::table::text_at;
use px_bytes::M;
use std::alloc::Global;
use std::collections::BTreeMap;
use std::marker::Model;
use toml::Value;
use toml::value::Array;

/// Texts with the places where they stand first, seen as pairs of both.
#[derive(Drop)]
pub(crate) struct Index {
    tree: BTreeMap<Vec<u8>, usize>,
}

impl Model for Index {
    ghost Value = { List (List ℕ × ℕ) };

    ghost view = { λ p. map (λ e. (e.0.items, e.1)) p.tree.entries };
}

impl Index {
    pub(crate) fn new(alloc: Global) -> Index
        ensures { result ≡ [] }
    {
        Index {
            tree: BTreeMap::new(alloc),
        }
    }

    /// The first place of a text.
    pub(crate) fn find(&self, text: &[u8]) -> Option<usize>
        ensures { result ≡ place_of self.now text.now }
    {
        self.tree.get(text).copied()
    }

    // Adds a place of a text, which is kept where it is the first.
    fn add(&mut self, text: Vec<u8>, at: usize) -> M<()>
        ensures { OnOk result ((asked : List ℕ) → place_of self.new asked
            ≡ with_text self.old (Some text.items) at asked) }
    {
        if self.find(&text).is_none() {
            self.tree.insert(text, at)?;
        }
        Ok(())
    }

    // Adds the text that an item has, if it has one.
    fn item(&mut self, alloc: Global, key: Option<&str>, value: &Value, at: usize) -> M<()>
        ensures { OnOk result ((asked : List ℕ) → place_of self.new asked
            ≡ with_text self.old
            (text_in (option_map (λ k. k.now) key.entry) (view value.now)) at asked) }
    {
        match text_in(key, value) {
            Some(text) => self.add(Vec::from_slice(alloc, text.as_bytes())?, at),
            None => Ok(()),
        }
    }
}

/// The text at a key of an item, or the item itself as a text.
pub(crate) fn text_in<'a>(key: Option<&str>, value: &'a Value) -> Option<&'a str>
    ensures { option_copied result ≡ text_in (option_map (λ k. k.now) key.entry) (view value.now) }
{
    match key {
        None => value.as_str(),
        Some(key) => match value.as_table() {
            Some(table) => text_at(table, key),
            None => None,
        },
    }
}

/// The first places of the texts at a key of the items of an array, or of the items themselves.
pub(crate) fn index_of(alloc: Global, key: Option<&str>, values: &Array) -> M<Index>
    ensures { IfOk result (λ index. place_of index
        ≡ first_place (option_map (λ k. k.now) key.entry) (array_view values.now)) }
{
    let mut index = Index::new(alloc);
    let mut at = 0;
    for value in values {
        index.item(alloc, key, value, at)?;
        at += 1;
    }
    Ok(index)
}
