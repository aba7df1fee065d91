// The variables of one level.

ghost use Rattle.std.specs.Prelude.{◌≡◌, ◌≤◌, ℕ, List, ◌+◌, length, min, IfOk, OnOk, OnErr};
ghost use Rattle.std.specs.Cmp.Lexicographic.{slice_cmp};
ghost use Rattle.std.specs.List.Sorted.{IsStrictlySortedBy};
ghost use Rattle.std.specs.Ordering.{nat_cmp};
ghost use Rattle.std.specs.Option.{option_copied};
ghost use Rattle.tcl_vars.specs.Scopes.{Level as LevelValue};
ghost use Rattle.tcl_vars.specs.Scopes.{no_level, value_in, with_value_in, level_bytes};
ghost use Rattle.tcl_vars.specs.Scopes.{is_set_in, without_value_in};
ghost use Rattle.tcl_vars.specs.Tables.{IsInOrderAt, index_bytes};
ghost use Rattle.std.specs.Bool.{OnFalse, OnTrue};
ghost use Rattle.tcl_vars.specs.Appended.{appended_in};
ghost use Rattle.tcl_vars.specs.Changed.{ChangedLevel, by_bytes, by_sum, to_bytes, to_number};
ghost use Rattle.tcl_vars.specs.Indexes.{indexes_in};

use crate::table::Table;
use px_bytes::{M, Text, Texts};
use std::alloc::Global;
use std::marker::Model;

/// The variables of one level, and how many bytes they have.
#[derive(Drop)]
pub(crate) struct Level {
    plain: Table<Text>,
    arrays: Table<Table<Text>>,
    bytes: usize,
}

impl Model for Level {
    ghost Value = { LevelValue };

    ghost view = { λ l. record { plain = l.plain; arrays = l.arrays } };

    ghost invariant = { λ l.
        l.bytes ≡ level_bytes (record { plain = l.plain; arrays = l.arrays }) };
}

impl Level {
    /// No variables, which takes no memory.
    pub(crate) fn new(alloc: Global) -> Level
        ensures { result ≡ no_level }
    {
        Level {
            plain: Table::new(alloc),
            arrays: Table::new(alloc),
            bytes: 0,
        }
    }

    /// The bytes of names, indexes and texts.
    pub(crate) fn bytes(&self) -> usize
        ensures { result ≡ level_bytes self.now }
    {
        self.bytes
    }

    /// The value of a variable or of an element.
    pub(crate) fn get(&self, name: &[u8], index: Option<&[u8]>) -> Option<&Text>
        ensures value { let i = option_copied index.entry in
            option_copied result ≡ value_in self.now name.now i }
        ensures in_order { IsInOrderAt self.now name.now (option_copied index.entry) }
    {
        match index {
            None => self.plain.get(name),
            Some(index) => self.arrays.get(name)?.get(index),
        }
    }

    /// The bytes with a value of so many bytes, or `usize::MAX` where they would be more than that.
    pub(crate) fn bytes_with(&self, name: &[u8], index: Option<&[u8]>, text_len: usize) -> usize
        ensures { let i = option_copied index.entry in
            (text : List ℕ) → length text ≡ text_len
            → result ≡ min (level_bytes (with_value_in name.now i text self.now)) usize.MAX }
    {
        let without = match self.get(name, index) {
            Some(old) => self.bytes - old.len(),
            None => self
                .bytes
                .saturating_add(name.len())
                .saturating_add(index_len(index)),
        };
        without.saturating_add(text_len)
    }

    /// Gives a variable or an element a value.
    pub(crate) fn set(
        &mut self,
        alloc: Global,
        name: &[u8],
        index: Option<&[u8]>,
        value: Text,
    ) -> M<()>
        requires { let i = option_copied index in
            level_bytes (with_value_in name.now i value self.old) ≤ usize.MAX }
        ensures ok { let i = option_copied index.entry in
            OnOk result (self.new ≡ with_value_in name.now i value self.old) }
        ensures err { OnErr result (self.new ≡ self.old) }
    {
        let bytes = self.bytes_with(name, index, value.len());
        match index {
            None => self.plain.put(alloc, name, value)?,
            Some(index) => self.arrays.put_element(alloc, name, index, value)?,
        }
        self.bytes = bytes;
        Ok(())
    }

    /// The bytes with more behind a value, or `usize::MAX` where they would be more than that.
    pub(crate) fn bytes_appended(&self, name: &[u8], index: Option<&[u8]>, more: &[u8]) -> usize
        ensures { let i = option_copied index.entry in
            let text = appended_in self.now name.now i more.now in
            result ≡ min (level_bytes (with_value_in name.now i text self.now)) usize.MAX }
    {
        let before = match self.get(name, index) {
            Some(_) => self.bytes,
            None => self
                .bytes
                .saturating_add(name.len())
                .saturating_add(index_len(index)),
        };
        before.saturating_add(more.len())
    }

    /// Adds bytes behind the value of a variable or an element, which is empty where there is none.
    pub(crate) fn append(
        &mut self,
        alloc: Global,
        name: &[u8],
        index: Option<&[u8]>,
        more: &[u8],
    ) -> M<()>
        requires { let i = option_copied index in
            let text = appended_in self.old name.now i more.now in
            level_bytes (with_value_in name.now i text self.old) ≤ usize.MAX }
        ensures ok { let i = option_copied index.entry in
            let text = appended_in self.old name.now i more.now in
            OnOk result (self.new ≡ with_value_in name.now i text self.old) }
        ensures err { OnErr result (self.new ≡ self.old) }
    {
        let bytes = self.bytes_appended(name, index, more);
        match index {
            None => self.plain.append(alloc, name, more)?,
            Some(index) => self.arrays.append_element(alloc, name, index, more)?,
        }
        self.bytes = bytes;
        Ok(())
    }

    /// Adds to the whole number that a variable is, where it takes no memory: whether it was done,
    /// and nothing changes where it wasn't.
    pub(crate) fn add_whole(&mut self, name: &[u8], more: i64) -> bool
        requires room { level_bytes self.old + 22 ≤ usize.MAX }
        ensures changed { let change = by_sum more in
            OnTrue result (ChangedLevel change 22 name.now self.old self.new) }
        ensures unchanged { OnFalse result (self.new ≡ self.old) }
    {
        let Some(change) = self.plain.add_whole(name, more) else {
            return false;
        };
        self.bytes = self.bytes - change.before + change.after;
        true
    }

    /// Gives a variable that is there a whole number, by the same rules.
    pub(crate) fn refill_whole(&mut self, name: &[u8], value: i64) -> bool
        requires room { level_bytes self.old + 22 ≤ usize.MAX }
        ensures changed { let change = to_number value in
            OnTrue result (ChangedLevel change 22 name.now self.old self.new) }
        ensures unchanged { OnFalse result (self.new ≡ self.old) }
    {
        let Some(change) = self.plain.refill_whole(name, value) else {
            return false;
        };
        self.bytes = self.bytes - change.before + change.after;
        true
    }

    /// Gives a variable that is there these bytes, by the same rules.
    pub(crate) fn refill(&mut self, name: &[u8], bytes: &[u8]) -> bool
        requires room { level_bytes self.old + 22 ≤ usize.MAX }
        ensures changed { let change = to_bytes bytes.now in
            OnTrue result (ChangedLevel change 22 name.now self.old self.new) }
        ensures unchanged { OnFalse result (self.new ≡ self.old) }
    {
        let Some(change) = self.plain.refill(name, bytes) else {
            return false;
        };
        self.bytes = self.bytes - change.before + change.after;
        true
    }

    /// Adds bytes behind a variable that is there, and `between` before them where it isn't empty.
    pub(crate) fn extend(&mut self, name: &[u8], between: &[u8], more: &[u8]) -> bool
        requires room { level_bytes self.old + (length between.now + length more.now) ≤ usize.MAX }
        ensures changed { let change = by_bytes between.now more.now in
            let most = (length between.now + length more.now) in
            OnTrue result (ChangedLevel change most name.now self.old self.new) }
        ensures unchanged { OnFalse result (self.new ≡ self.old) }
    {
        let Some(change) = self.plain.extend(name, between, more) else {
            return false;
        };
        self.bytes = self.bytes - change.before + change.after;
        true
    }

    /// The indexes under which a name has values, in the order of their bytes.
    pub(crate) fn indexes(&self, alloc: Global, name: &[u8]) -> M<Texts>
        ensures indexes { IfOk result (λ names. names ≡ indexes_in self.now name.now) }
        ensures sorted { IfOk result (λ names. IsStrictlySortedBy (slice_cmp nat_cmp) names) }
    {
        match self.arrays.get(name) {
            Some(elements) => elements.names(alloc),
            None => Ok(Texts::new(alloc)),
        }
    }

    /// Takes a variable out, or an element: whether there was one.
    pub(crate) fn unset(&mut self, name: &[u8], index: Option<&[u8]>) -> bool
        ensures was_set { result ≡ is_set_in self.old name.now (option_copied index.entry) }
        ensures left { self.new ≡ without_value_in name.now (option_copied index.entry) self.old }
        ensures fewer { level_bytes self.new ≤ level_bytes self.old }
    {
        match index {
            None => self.unset_name(name),
            Some(index) => self.unset_element(name, index),
        }
    }

    // Takes a name's plain value out.
    fn unset_name(&mut self, name: &[u8]) -> bool
        ensures was_set { result ≡ is_set_in self.old name.now None }
        ensures left { self.new ≡ without_value_in name.now None self.old }
        ensures fewer { level_bytes self.new ≤ level_bytes self.old }
    {
        let Some(old) = self.plain.remove(name) else {
            return false;
        };
        self.bytes -= name.len() + old.len();
        true
    }

    // Takes an element of a name out.
    fn unset_element(&mut self, name: &[u8], index: &[u8]) -> bool
        ensures was_set { result ≡ is_set_in self.old name.now (Some index.now) }
        ensures left { self.new ≡ without_value_in name.now (Some index.now) self.old }
        ensures fewer { level_bytes self.new ≤ level_bytes self.old }
    {
        let Some(old) = self.arrays.remove_element(name, index) else {
            return false;
        };
        self.bytes -= name.len() + index.len() + old.len();
        true
    }
}

// The bytes of an index, and none where there is none.
fn index_len(index: Option<&[u8]>) -> usize
    ensures { result ≡ index_bytes (option_copied index.entry) }
{
    match index {
        Some(index) => index.len(),
        None => 0,
    }
}
