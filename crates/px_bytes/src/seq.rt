// Items in order.

ghost use Rattle.std.specs.Prelude.{◌≡◌, List, [], ◌∷◌, ◌++◌, length, slice_get, option_map, OnOk};
ghost use Rattle.std.specs.Prelude.{OnErr};

use crate::{M, Text};
use std::alloc::Global;
use std::marker::Model;

/// Items in order, which contracts see as a list.
#[derive(Drop)]
pub struct Seq<T> {
    items: Vec<T>,
}

impl<T> Model for Seq<T> {
    ghost Value = { List T };

    ghost view = { λ s. s.items.items };
}

/// Texts in order.
pub type Texts = Seq<Text>;

/// Keys with their values, in order.
pub type Pairs = Seq<(Text, Text)>;

impl<T: Drop> Seq<T> {
    pub fn new(alloc: Global) -> Seq<T>
        ensures { result ≡ [] }
    {
        Seq {
            items: Vec::new(alloc),
        }
    }

    pub fn len(&self) -> usize
        ensures { result ≡ length self.now }
    {
        self.items.len()
    }

    /// The item at a place, the first being at 0.
    pub fn get(&self, at: usize) -> Option<&T>
        ensures { option_map (λ x. x.now) result ≡ slice_get self.now at }
    {
        self.items.get(at)
    }

    pub fn as_slice(&self) -> &[T]
        ensures { result.now ≡ self.now }
    {
        &self.items
    }

    /// Adds an item at the end.
    pub fn push(&mut self, item: T) -> M<()>
        ensures ok { OnOk result (self.new ≡ self.old ++ item ∷ []) }
        ensures err { OnErr result (self.new ≡ self.old) }
    {
        self.items.push(item)?;
        Ok(())
    }

    /// Takes all items away.
    pub fn clear(&mut self)
        ensures { self.new ≡ [] }
    {
        self.items.clear();
    }
}
