// What changes fields.

ghost use Rattle.std.specs.Prelude.{◌≡◌, ◌<◌, ◌∷◌, ◌++◌, [], length, nat_le, set, sum_by};
ghost use Rattle.http_heads.specs.Fields.{Edits, fit, line_length, named, replaced, room_beside};
ghost use Rattle.http_heads.specs.Fields.{without};

use crate::field::Field;
use crate::fields::{Fields, is_named};
use px_bytes::{Raise, Text};
use std::alloc::Global;
use std::mem;

/// The most bytes that the lines of the fields may have together.
const MOST_BYTES: usize = 65_536;

/// The most fields.
pub(crate) const MOST_FIELDS: usize = 100;

// What is left of so many bytes beside the line of a field.
fn room_beside(room: usize, field: &(Text, Text)) -> Option<usize>
    ensures { result ≡ room_beside room (line_length field.now) }
{
    let room = room.checked_sub(field.0.len())?;
    let room = room.checked_sub(field.1.len())?;
    room.checked_sub(4)
}

// Whether the lines of the fields aren't too long together.
fn have_room(fields: &[(Text, Text)]) -> bool
    ensures { result ≡ nat_le (sum_by line_length fields.now) 65536 }
{
    let mut room = MOST_BYTES;
    for field in fields {
        match room_beside(room, field) {
            Some(rest) => room = rest,
            None => return false,
        }
    }
    true
}

fn fit(fields: &[(Text, Text)]) -> bool
    ensures { result ≡ fit fields.now }
{
    fields.len() <= MOST_FIELDS && have_room(fields)
}

impl Fields {
    /// Adds a field at the end. Too long where they would be more than 100, or have more than 65,536
    /// bytes together as they are written.
    pub fn insert(&mut self, alloc: Global, field: Field) -> Result<(), Raise>
        ensures { Edits result self.old self.new (self.old ++ field ∷ []) }
    {
        self.list.push(field.into_pair())?;
        if fit(&self.list) {
            return Ok(());
        }
        let _ = self.list.pop();
        Raise::too_long(alloc)
    }

    /// Puts a field in the place of the last one of its name, or at the end. Too long as in `insert`.
    pub fn replace(&mut self, alloc: Global, field: Field) -> Result<(), Raise>
        ensures { Edits result self.old self.new (replaced field self.old) }
    {
        match self.last_place(field.name()) {
            Some(at) => self.put(alloc, at, field),
            None => self.insert(alloc, field),
        }
    }

    // Puts a field at a place.
    fn put(&mut self, alloc: Global, at: usize, field: Field) -> Result<(), Raise>
        requires { at < length self.old }
        ensures { Edits result self.old self.new (set self.old at field) }
    {
        let old = mem::replace(&mut self.list[at], field.into_pair());
        if fit(&self.list) {
            return Ok(());
        }
        self.list[at] = old;
        Raise::too_long(alloc)
    }

    /// Takes all fields of a name away; tells how many these were.
    pub fn remove(&mut self, name: &[u8]) -> usize
        ensures count { result ≡ length (named name.now self.old) }
        ensures fields { self.new ≡ without name.now self.old }
    {
        let taken = self.count(name);
        self.drop_named(name);
        taken
    }

    pub(crate) fn drop_named(&mut self, name: &[u8])
        ensures { self.new ≡ without name.now self.old }
    {
        self.list.retain(|field| !is_named(name, field));
    }
}
