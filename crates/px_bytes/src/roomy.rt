// Items in order, with room kept for more.

ghost use Rattle.std.specs.Prelude.{◌≡◌, ◌≤◌, ◌<◌, ◌+◌, ◌-◌, [], ◌∷◌, ◌++◌, length, slice_get};
ghost use Rattle.std.specs.Prelude.{option_map, OnOk, OnErr, IsOk, vec_len, vec_capacity};
ghost use Rattle.px_bytes.specs.Roomy.{Roomy};

use crate::M;
use std::alloc::Global;
use std::marker::Model;

/// Items in order, and how many more can be pushed without taking memory.
#[derive(Drop)]
pub struct RoomySeq<T> {
    items: Vec<T>,
}

impl<T> Model for RoomySeq<T> {
    ghost Value = { Roomy T };

    ghost view = { λ s.
        record { items = s.items.items; spare = vec_capacity s.items - vec_len s.items } };
}

impl<T: Drop> RoomySeq<T> {
    pub fn new(alloc: Global) -> RoomySeq<T>
        ensures { result.items ≡ [] }
    {
        RoomySeq {
            items: Vec::new(alloc),
        }
    }

    /// Makes room for `n` more, and never gives up room that there is.
    pub fn reserve(&mut self, n: usize) -> M<()>
        ensures same { self.new.items ≡ self.old.items }
        ensures room { OnOk result (n ≤ self.new.spare) }
        ensures grows { self.old.spare ≤ self.new.spare }
        ensures err { OnErr result (self.new ≡ self.old) }
    {
        self.items.reserve(n)?;
        Ok(())
    }

    pub fn len(&self) -> usize
        ensures { result ≡ length self.now.items }
    {
        self.items.len()
    }

    /// The item at a place, the first being at 0.
    pub fn get(&self, at: usize) -> Option<&T>
        ensures { option_map (λ x. x.now) result ≡ slice_get self.now.items at }
    {
        self.items.get(at)
    }

    pub fn as_slice(&self) -> &[T]
        ensures { result.now ≡ self.now.items }
    {
        &self.items
    }

    /// Adds an item at the end.
    pub fn push(&mut self, item: T) -> M<()>
        ensures spare { 0 < self.old.spare → IsOk result }
        ensures ok { OnOk result (self.new.items ≡ self.old.items ++ item ∷ []) }
        ensures room { OnOk result (self.old.spare ≤ self.new.spare + 1) }
        ensures err { OnErr result (self.new.items ≡ self.old.items) }
    {
        self.items.push(item)?;
        Ok(())
    }

    /// Adds an item in the room that there is, which takes no memory.
    pub fn push_reserved(&mut self, item: T)
        requires { 0 < self.old.spare }
        ensures items { self.new.items ≡ self.old.items ++ item ∷ [] }
        ensures spare { self.new.spare + 1 ≡ self.old.spare }
    {
        self.items.push_reserved(item);
    }

    /// Takes all items away.
    pub fn clear(&mut self)
        ensures items { self.new.items ≡ [] }
        ensures spare { self.old.spare ≤ self.new.spare }
    {
        self.items.clear();
    }
}
