// A table of values by names.

ghost use Rattle.std.specs.Prelude.{◌≡◌, ◌≤◌, ◌↔◌, ◌+◌, ◌++◌, ℕ, List, [], length, map, unwrap_or};
ghost use Rattle.std.specs.Prelude.{IfNone, IfOk, IfSome, IsTrue, OnOk, OnErr};
ghost use Rattle.std.specs.Option.{option_copied};
ghost use Rattle.std.specs.Ordering.{nat_cmp};
ghost use Rattle.std.specs.Cmp.Lexicographic.{slice_cmp};
ghost use Rattle.std.specs.List.Sorted.{IsStrictlySortedBy};
ghost use Rattle.std.specs.Map.{keys_of};
ghost use Rattle.std.specs.BTreeMap.{IsOrdered};
ghost use Rattle.tcl_vars.specs.Scopes.{find_in, put_in, take_out, with_elements};
ghost use Rattle.tcl_vars.specs.Changed.{ChangedTable, by_bytes, by_sum, to_bytes, to_number};
ghost use Rattle.tcl_vars.specs.Tables.{IsInOrder};

use px_bytes::{M, Text, Texts};
use std::alloc::Global;
use std::collections::BTreeMap;
use std::marker::Model;

/// A finite map from names, seen as its entries in the order of the names' bytes.
#[derive(Drop)]
pub(crate) struct Table<X> {
    tree: BTreeMap<Vec<u8>, X>,
}

impl<X> Model for Table<X> {
    ghost Value = { List (List ℕ × X) };

    ghost view = { λ t. map (λ e. (e.0.items, e.1)) t.tree.entries };

    ghost invariant = { λ t. IsOrdered (λ x y. slice_cmp nat_cmp x.items y.items) t.tree };
}

impl<X: Drop> Table<X> {
    /// No entries, which takes no memory.
    pub(crate) fn new(alloc: Global) -> Table<X>
        ensures { result ≡ [] }
    {
        Table {
            tree: BTreeMap::new(alloc),
        }
    }

    /// The value of a name.
    pub(crate) fn get(&self, name: &[u8]) -> Option<&X>
        ensures value { option_copied result ≡ find_in name.now self.now }
        ensures in_order { IsInOrder self.now }
    {
        self.tree.get(name)
    }

    /// Gives a name a value.
    pub(crate) fn put(&mut self, alloc: Global, name: &[u8], x: X) -> M<()>
        ensures ok { OnOk result (self.new ≡ put_in name.now x self.old) }
        ensures err { OnErr result (self.new ≡ self.old) }
    {
        if let Some(old) = self.tree.get_mut(name) {
            *old = x;
            return Ok(());
        }
        self.tree.insert(Vec::from_slice(alloc, name)?, x)?;
        Ok(())
    }

    /// Takes a name's entry out.
    pub(crate) fn remove(&mut self, name: &[u8]) -> Option<X>
        ensures value { result ≡ find_in name.now self.old }
        ensures left { self.new ≡ take_out name.now self.old }
    {
        self.tree.remove(name)
    }

    /// The names, in the order of their bytes.
    pub(crate) fn names(&self, alloc: Global) -> M<Texts>
        ensures names { IfOk result (λ names. names ≡ keys_of self.now) }
        ensures sorted { IfOk result (λ names. IsStrictlySortedBy (slice_cmp nat_cmp) names) }
    {
        let mut names = Texts::new(alloc);
        for name in self.tree.keys() {
            names.push(Text::new(alloc, name)?)?;
        }
        Ok(names)
    }

    pub(crate) fn is_empty(&self) -> bool
        ensures { IsTrue result ↔ (self.now ≡ []) }
    {
        self.tree.is_empty()
    }
}

impl<X: Drop> Table<Table<X>> {
    /// Gives an element of a name's table a value.
    pub(crate) fn put_element(&mut self, alloc: Global, name: &[u8], index: &[u8], x: X) -> M<()>
        ensures ok { let elements = unwrap_or (find_in name.now self.old) [] in
            OnOk result (self.new ≡ put_in name.now (put_in index.now x elements) self.old) }
        ensures err { OnErr result (self.new ≡ self.old) }
    {
        if let Some(elements) = self.tree.get_mut(name) {
            return elements.put(alloc, index, x);
        }
        let mut elements = Table::new(alloc);
        elements.put(alloc, index, x)?;
        self.put(alloc, name, elements)
    }

    /// Takes an element of a name's table out, and the table with its last element.
    pub(crate) fn remove_element(&mut self, name: &[u8], index: &[u8]) -> Option<X>
        ensures value { let elements = unwrap_or (find_in name.now self.old) [] in
            result ≡ find_in index.now elements }
        ensures left { let elements = unwrap_or (find_in name.now self.old) [] in
            self.new ≡ with_elements name.now (take_out index.now elements) self.old }
    {
        let elements = self.tree.get_mut(name)?;
        let old = elements.remove(index);
        if elements.is_empty() {
            self.tree.remove(name);
        }
        old
    }
}

/// How many bytes a text had and has.
#[derive(Clone, Copy)]
pub(crate) struct Change {
    pub(crate) before: usize,
    pub(crate) after: usize,
}

impl Table<Text> {
    /// Adds to the whole number that a name has, where the sum stands in the value itself: none
    /// where it doesn't, and nothing changes then.
    pub(crate) fn add_whole(&mut self, name: &[u8], more: i64) -> Option<Change>
        ensures changed { let change = by_sum more in
            IfSome result (λ c.
            ChangedTable change 22 name.now self.old self.new c.before c.after) }
        ensures unchanged { IfNone result (self.new ≡ self.old) }
    {
        let text = self.tree.get_mut(name)?;
        let before = text.len();
        if !text.add_whole(more) {
            return None;
        }
        let after = text.len();
        Some(Change { before, after })
    }

    /// Puts a whole number in place of the text of a name, by the same rules.
    pub(crate) fn refill_whole(&mut self, name: &[u8], value: i64) -> Option<Change>
        ensures changed { let change = to_number value in
            IfSome result (λ c.
            ChangedTable change 22 name.now self.old self.new c.before c.after) }
        ensures unchanged { IfNone result (self.new ≡ self.old) }
    {
        let text = self.tree.get_mut(name)?;
        let before = text.len();
        if !text.refill_whole(value) {
            return None;
        }
        let after = text.len();
        Some(Change { before, after })
    }

    /// Puts bytes in place of the text of a name, by the same rules.
    pub(crate) fn refill(&mut self, name: &[u8], bytes: &[u8]) -> Option<Change>
        ensures changed { let change = to_bytes bytes.now in
            IfSome result (λ c.
            ChangedTable change 22 name.now self.old self.new c.before c.after) }
        ensures unchanged { IfNone result (self.new ≡ self.old) }
    {
        let text = self.tree.get_mut(name)?;
        let before = text.len();
        if !text.refill(bytes) {
            return None;
        }
        let after = text.len();
        Some(Change { before, after })
    }

    /// Adds bytes behind the text that a name has, and `between` before them where it isn't empty.
    /// None where it has no text or memory is refused, and nothing changes then.
    pub(crate) fn extend(&mut self, name: &[u8], between: &[u8], more: &[u8]) -> Option<Change>
        ensures changed { let change = by_bytes between.now more.now in
            let most = (length between.now + length more.now) in
            IfSome result (λ c.
            ChangedTable change most name.now self.old self.new c.before c.after) }
        ensures unchanged { IfNone result (self.new ≡ self.old) }
    {
        let text = self.tree.get_mut(name)?;
        let before = text.len();
        if !text.extend(between, more) {
            return None;
        }
        let after = text.len();
        Some(Change { before, after })
    }

    /// Adds bytes behind the text of a name, which is empty where there is none.
    pub(crate) fn append(&mut self, alloc: Global, name: &[u8], more: &[u8]) -> M<()>
        ensures ok { let old = unwrap_or (find_in name.now self.old) [] in
            OnOk result (self.new ≡ put_in name.now (old ++ more.now) self.old) }
        ensures err { OnErr result (self.new ≡ self.old) }
    {
        if let Some(text) = self.tree.get_mut(name) {
            return text.push(more);
        }
        self.put(alloc, name, Text::new(alloc, more)?)
    }
}

impl Table<Table<Text>> {
    /// Adds bytes behind the text of an element of a name's table.
    pub(crate) fn append_element(
        &mut self,
        alloc: Global,
        name: &[u8],
        index: &[u8],
        more: &[u8],
    ) -> M<()>
        ensures ok { let elements = unwrap_or (find_in name.now self.old) [] in
            let old = unwrap_or (find_in index.now elements) [] in
            OnOk result (self.new
            ≡ put_in name.now (put_in index.now (old ++ more.now) elements) self.old) }
        ensures err { OnErr result (self.new ≡ self.old) }
    {
        if let Some(elements) = self.tree.get_mut(name) {
            return elements.append(alloc, index, more);
        }
        let mut elements = Table::new(alloc);
        elements.append(alloc, index, more)?;
        self.put(alloc, name, elements)
    }
}
