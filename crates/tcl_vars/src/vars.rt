// The variables of a script.

ghost use Rattle.std.specs.Prelude.{◌≡◌, ◌+◌, ◌<◌, ◌≤◌, ℕ, List, ◌∷◌, length, min, reverse, sum_by};
ghost use Rattle.std.specs.Prelude.{IfErr, IfOk, IsTrue, OnOk, OnErr, false, ◌↔◌};
ghost use Rattle.std.specs.Bool.{OnFalse, OnTrue};
ghost use Rattle.std.specs.Cmp.Lexicographic.{slice_cmp};
ghost use Rattle.std.specs.List.Sorted.{IsStrictlySortedBy};
ghost use Rattle.std.specs.Option.{option_copied};
ghost use Rattle.std.specs.Ordering.{nat_cmp};
ghost use Rattle.px_bytes.specs.FaultText.{too_long};
ghost use Rattle.tcl_vars.specs.Scopes.{Scopes, no_scopes, is_static, value_at, with_value};
ghost use Rattle.tcl_vars.specs.Scopes.{is_set, without_value, in_proc, out_of_proc};
ghost use Rattle.tcl_vars.specs.Scopes.{level_bytes, vars_bytes, vars_limit};
ghost use Rattle.tcl_vars.specs.Appended.{appended};
ghost use Rattle.tcl_vars.specs.Changed.{ChangedVars, by_bytes, by_sum, to_bytes, to_number};
ghost use Rattle.tcl_vars.specs.Faults.{IfFault};
ghost use Rattle.tcl_vars.specs.Indexes.{indexes_at};
ghost use Rattle.tcl_vars.specs.Laws.{level_of};
ghost use Rattle.tcl_vars.specs.Tables.{IsInOrderAt};

use crate::level::Level;
use px_bytes::{M, Raise, Text, Texts};
use std::alloc::Global;
use std::marker::Model;
use std::mem;

/// The most bytes that all variables may have together.
const LIMIT: usize = 1_048_576;

/// As many bytes as a text has at most that stands in its value.
const SHORT: usize = 22;

/// The variables of a script: the static ones, and a level for the body and for each procedure
/// call that hasn't ended.
#[derive(Drop)]
pub struct Vars {
    statics: Level,
    innermost: Level,
    // The levels outside the innermost, the body's first.
    outer: Vec<Level>,
    outer_bytes: usize,
}

impl Model for Vars {
    ghost Value = { Scopes };

    ghost view = { λ v.
        record { statics = v.statics; levels = v.innermost ∷ reverse v.outer.items } };

    ghost invariant = { λ v.
        (v.outer_bytes ≡ sum_by level_bytes (reverse v.outer.items))
        × (level_bytes v.statics + (level_bytes v.innermost + v.outer_bytes) ≤ vars_limit) };
}

impl Vars {
    /// No variables, which takes no memory.
    pub fn new(alloc: Global) -> Vars
        ensures { result ≡ no_scopes }
    {
        Vars {
            statics: Level::new(alloc),
            innermost: Level::new(alloc),
            outer: Vec::new(alloc),
            outer_bytes: 0,
        }
    }

    /// The bytes of all names, indexes and texts.
    pub fn bytes(&self) -> usize
        ensures bytes { result ≡ vars_bytes self.now }
        ensures room { result ≤ vars_limit }
    {
        self.statics.bytes() + self.innermost.bytes() + self.outer_bytes
    }

    /// The value of a variable, or of an element.
    pub fn get(&self, name: &[u8], index: Option<&[u8]>) -> Option<&Text>
        ensures value { let i = option_copied index.entry in
            option_copied result ≡ value_at self.now name.now i }
        ensures in_order { let i = option_copied index.entry in
            IsInOrderAt (level_of self.now name.now) name.now i }
    {
        if is_static(name) {
            self.statics.get(name, index)
        } else {
            self.innermost.get(name, index)
        }
    }

    /// Gives a variable or an element a value. That all variables would have more bytes than they
    /// may is a fault.
    pub fn set(&mut self, name: &[u8], index: Option<&[u8]>, value: Text) -> Result<(), Raise>
        ensures ok { let i = option_copied index.entry in
            OnOk result (self.new ≡ with_value name.now i value self.old) }
        ensures room { OnOk result (vars_bytes self.new ≤ vars_limit) }
        ensures err { OnErr result (self.new ≡ self.old) }

        // A fault is `too_long`, and comes only where the variables would have too many bytes.
        ensures fault { IfErr result (λ e. IfFault e (λ f. f ≡ too_long)) }
        ensures over_limit { let i = option_copied index.entry in
            let bytes = vars_bytes (with_value name.now i value self.old) in
            IfErr result (λ e. IfFault e (λ _. vars_limit < bytes)) }
    {
        let alloc = *self.outer.allocator();
        if self.bytes_with(name, index, value.len()) > LIMIT {
            return Raise::too_long(alloc);
        }
        if is_static(name) {
            self.statics.set(alloc, name, index, value)?;
        } else {
            self.innermost.set(alloc, name, index, value)?;
        }
        Ok(())
    }

    /// Adds bytes behind the value of a variable or an element, which begins as the empty text
    /// where there is none. That all variables would have more bytes than they may is a fault. It
    /// costs what is added, amortised: the old value isn't copied.
    pub fn append(&mut self, name: &[u8], index: Option<&[u8]>, more: &[u8]) -> Result<(), Raise>
        ensures ok { let i = option_copied index.entry in
            let text = appended self.old name.now i more.now in
            OnOk result (self.new ≡ with_value name.now i text self.old) }
        ensures room { OnOk result (vars_bytes self.new ≤ vars_limit) }
        ensures err { OnErr result (self.new ≡ self.old) }

        // A fault is `too_long`, and comes only where the variables would have too many bytes.
        ensures fault { IfErr result (λ e. IfFault e (λ f. f ≡ too_long)) }
        ensures over_limit { let i = option_copied index.entry in
            let text = appended self.old name.now i more.now in
            let bytes = vars_bytes (with_value name.now i text self.old) in
            IfErr result (λ e. IfFault e (λ _. vars_limit < bytes)) }
    {
        let alloc = *self.outer.allocator();
        if self.bytes_appended(name, index, more) > LIMIT {
            return Raise::too_long(alloc);
        }
        if is_static(name) {
            self.statics.append(alloc, name, index, more)?;
        } else {
            self.innermost.append(alloc, name, index, more)?;
        }
        Ok(())
    }

    /// Adds to the whole number that a variable of the innermost level is, which takes no memory:
    /// whether it was done. Where it wasn't nothing changes, and `set` tells why.
    pub fn add_whole(&mut self, name: &[u8], more: i64) -> bool
        ensures changed { let change = by_sum more in
            OnTrue result (ChangedVars change name.now self.old self.new) }
        ensures own { OnTrue result (is_static name.now ≡ false) }
        ensures room { vars_bytes self.new ≤ vars_limit }
        ensures unchanged { OnFalse result (self.new ≡ self.old) }
    {
        !is_static(name) && self.has_room(SHORT) && self.innermost.add_whole(name, more)
    }

    /// Gives a variable of the innermost level that is there a whole number, by the same rules.
    pub fn refill_whole(&mut self, name: &[u8], value: i64) -> bool
        ensures changed { let change = to_number value in
            OnTrue result (ChangedVars change name.now self.old self.new) }
        ensures own { OnTrue result (is_static name.now ≡ false) }
        ensures room { vars_bytes self.new ≤ vars_limit }
        ensures unchanged { OnFalse result (self.new ≡ self.old) }
    {
        !is_static(name) && self.has_room(SHORT) && self.innermost.refill_whole(name, value)
    }

    /// Gives a variable of the innermost level that is there short bytes, by the same rules.
    pub fn refill(&mut self, name: &[u8], bytes: &[u8]) -> bool
        ensures changed { let change = to_bytes bytes.now in
            OnTrue result (ChangedVars change name.now self.old self.new) }
        ensures own { OnTrue result (is_static name.now ≡ false) }
        ensures room { vars_bytes self.new ≤ vars_limit }
        ensures unchanged { OnFalse result (self.new ≡ self.old) }
    {
        !is_static(name) && self.has_room(SHORT) && self.innermost.refill(name, bytes)
    }

    /// Adds bytes behind a variable of the innermost level that is there, and `between` before them
    /// where it isn't empty: whether it was done. Where it wasn't nothing changes.
    pub fn extend(&mut self, name: &[u8], between: &[u8], more: &[u8]) -> bool
        ensures changed { let change = by_bytes between.now more.now in
            OnTrue result (ChangedVars change name.now self.old self.new) }
        ensures own { OnTrue result (is_static name.now ≡ false) }
        ensures room { vars_bytes self.new ≤ vars_limit }
        ensures unchanged { OnFalse result (self.new ≡ self.old) }
    {
        !is_static(name)
            && self.has_room(more.len().saturating_add(between.len()))
            && self.innermost.extend(name, between, more)
    }

    // Whether so many bytes more may come.
    fn has_room(&self, more: usize) -> bool
        ensures { IsTrue result ↔ (vars_bytes self.now + more ≤ vars_limit) }
    {
        more <= LIMIT - self.bytes()
    }

    /// The indexes under which a name has values, in the order of their bytes.
    pub fn indexes(&self, name: &[u8]) -> M<Texts>
        ensures indexes { IfOk result (λ names. names ≡ indexes_at self.now name.now) }
        ensures sorted { IfOk result (λ names. IsStrictlySortedBy (slice_cmp nat_cmp) names) }
    {
        let alloc = *self.outer.allocator();
        if is_static(name) {
            self.statics.indexes(alloc, name)
        } else {
            self.innermost.indexes(alloc, name)
        }
    }

    /// Takes out an element, or a name's plain value alone, whose elements stay: whether there was
    /// one. It takes no memory.
    pub fn unset(&mut self, name: &[u8], index: Option<&[u8]>) -> bool
        ensures was_set { result ≡ is_set self.old name.now (option_copied index.entry) }
        ensures left { self.new ≡ without_value name.now (option_copied index.entry) self.old }
    {
        if is_static(name) {
            self.statics.unset(name, index)
        } else {
            self.innermost.unset(name, index)
        }
    }

    /// Begins a procedure call, which has no variables yet.
    pub fn enter_proc(&mut self) -> M<()>
        ensures ok { OnOk result (self.new ≡ in_proc self.old) }
        ensures entered { OnOk result (1 < length self.new.levels) }
        ensures err { OnErr result (self.new ≡ self.old) }
    {
        self.outer.reserve(1)?;
        let fresh = Level::new(*self.outer.allocator());
        let caller = mem::replace(&mut self.innermost, fresh);
        self.outer_bytes += caller.bytes();
        self.outer.push_reserved(caller);
        Ok(())
    }

    /// Ends a procedure call, with its variables; outside of all calls it does nothing.
    pub fn leave_proc(&mut self)
        ensures { self.new ≡ out_of_proc self.old }
    {
        if let Some(caller) = self.outer.pop() {
            self.outer_bytes -= caller.bytes();
            self.innermost = caller;
        }
    }

    // The bytes with a value of so many bytes, or `usize::MAX` where they would be more than that.
    fn bytes_with(&self, name: &[u8], index: Option<&[u8]>, text_len: usize) -> usize
        ensures { let i = option_copied index.entry in
            (text : List ℕ) → length text ≡ text_len
            → result ≡ min (vars_bytes (with_value name.now i text self.now)) usize.MAX }
    {
        if is_static(name) {
            let others = self.innermost.bytes() + self.outer_bytes;
            self.statics
                .bytes_with(name, index, text_len)
                .saturating_add(others)
        } else {
            let others = self.statics.bytes() + self.outer_bytes;
            self.innermost
                .bytes_with(name, index, text_len)
                .saturating_add(others)
        }
    }

    // The bytes with more behind a value, or `usize::MAX` where they would be more than that.
    fn bytes_appended(&self, name: &[u8], index: Option<&[u8]>, more: &[u8]) -> usize
        ensures { let i = option_copied index.entry in
            let text = appended self.now name.now i more.now in
            result ≡ min (vars_bytes (with_value name.now i text self.now)) usize.MAX }
    {
        if is_static(name) {
            let others = self.innermost.bytes() + self.outer_bytes;
            self.statics
                .bytes_appended(name, index, more)
                .saturating_add(others)
        } else {
            let others = self.statics.bytes() + self.outer_bytes;
            self.innermost
                .bytes_appended(name, index, more)
                .saturating_add(others)
        }
    }
}

// Whether a name is one variable at every level.
fn is_static(name: &[u8]) -> bool
    ensures { result ≡ is_static name.now }
{
    name.starts_with(b"static::")
}
