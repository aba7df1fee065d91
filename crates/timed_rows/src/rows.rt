// Values by keys, with deadlines.

ghost use Rattle.std.specs.Prelude.{◌≡◌, ◌<◌, ◌^◌, [], None, true, OnOk, OnErr, length};
ghost use Rattle.std.specs.Option.{option_copied};
ghost use Rattle.std.specs.List.Sorted.{IsStrictlySortedBy};
ghost use Rattle.std.specs.Map.{keys_of, lookup, remove_entry, set_value};
ghost use Rattle.std.specs.Map.Iter.{ShowsInOrder, deref};
ghost use Rattle.std.specs.BTreeMap.{insert_entry, is_at};
ghost use Rattle.timed_rows.specs.Rows.{later_than, value_at};

use crate::slots::{room_for_one, set_due};
use crate::timed_value::TimedValue;
use index_lists::Wheel;
use slab::Slab;
use std::alloc::{AllocError, Global};
use std::collections::BTreeMap;
use std::collections::btree_map::Keys;
use std::marker::Model;
use std::mem::replace;

/// Values of one type by keys, each with a deadline or none, seen as the list of its entries by rising
/// key.
#[derive(Drop)]
pub struct Rows<K: Ord, T> {
    entries: BTreeMap<K, TimedValue<T>>,
    // The key of each slot, so that a deadline finds its entry.
    keys: Slab<K>,
    dues: Wheel,
}

impl<K: Ord, T> Model for Rows<K, T> {
    ghost use Rattle.std.specs.Prelude.{List};
    ghost use Rattle.timed_rows.specs.Rows.{Timed};
    ghost use Rattle.timed_rows.specs.Tied.{IsTied, seen};

    ghost Value = { List (K × Timed T) };

    ghost view = { λ r. seen r.entries.entries };

    ghost invariant = { λ r. IsTied K.cmp r.entries.entries r.keys r.dues.dues };
}

impl<K: Ord + Drop, T: Drop> Rows<K, T> {
    /// No entries, which takes no memory.
    pub fn new(alloc: Global) -> Self
        ensures { result ≡ [] }
    {
        Rows {
            entries: BTreeMap::new(alloc),
            keys: Slab::new(alloc),
            dues: Wheel::new(alloc),
        }
    }

    /// How many entries there are.
    pub fn len(&self) -> usize
        ensures { result ≡ length self.now }
    {
        self.entries.len()
    }

    /// The keys, each below those behind it.
    pub fn keys(&self) -> Keys<'_, K, TimedValue<T>>
        ensures rest { result ≡ keys_of self.now }
        ensures sorted { IsStrictlySortedBy K.cmp (keys_of self.now) }
        ensures fits { length self.now < 2 ^ 63 }
        ensures runs { ShowsInOrder (deref {X = K}) }
    {
        self.entries.keys()
    }

    /// The value of a key.
    pub fn get(&self, key: &K) -> Option<&T>
        ensures { option_copied result ≡ value_at (K.cmp key.now) self.now }
    {
        match self.entries.get(key) {
            Some(held) => Some(&held.value),
            None => None,
        }
    }
    /// Adds an entry under a key that has none. The key is given twice: once to be found by, and once to
    /// find the entry by its deadline.
    pub fn insert(&mut self, key: K, again: K, value: T, due: Option<u64>) -> Result<(), AllocError>
        requires absent { lookup (is_at (K.cmp key)) self.old ≡ None }
        requires same { is_at (K.cmp key) again ≡ true }
        ensures ok { OnOk result (self.new ≡ insert_entry K.cmp self.old key (value, due)) }
        ensures err { OnErr result (self.new ≡ self.old) }
    {
        let slot = room_for_one(&mut self.keys, &mut self.dues)?;
        self.entries.insert(key, TimedValue { value, due, slot })?;
        self.keys.insert_reserved(again);
        set_due(&mut self.dues, slot, due);
        Ok(())
    }

    /// Puts a value and a deadline in the place of those of a key, and gives the old value. None exactly
    /// where the key has no entry.
    pub fn replace(&mut self, key: &K, value: T, due: Option<u64>) -> Option<T>
        ensures value { result ≡ value_at (K.cmp key.now) self.old }
        ensures entries { self.new ≡ set_value (is_at (K.cmp key.now)) self.old (value, due) }
    {
        let Some(held) = self.entries.get_mut(key) else {
            return None;
        };
        let at = held.slot;
        held.due = due;
        let old = replace(&mut held.value, value);
        set_due(&mut self.dues, at, due);
        Some(old)
    }

    /// Takes the entry of a key away, and gives its value.
    pub fn remove(&mut self, key: &K) -> Option<T>
        ensures value { result ≡ value_at (K.cmp key.now) self.old }
        ensures entries { self.new ≡ remove_entry (is_at (K.cmp key.now)) self.old }
    {
        let Some(held) = self.entries.remove(key) else {
            return None;
        };
        self.keys.remove(held.slot as usize);
        self.dues.cancel(held.slot);
        Some(held.value)
    }

    /// Takes the entries away whose deadline has come. It takes as many steps as there are of these, each
    /// with a search.
    pub fn expire(&mut self, moment: u64)
        ensures { self.new ≡ later_than moment self.old }
    {
        while let Some(slot) = self.dues.advance(moment) {
            let key = self.keys.remove(slot as usize);
            self.entries.remove(&key);
        }
    }
}
