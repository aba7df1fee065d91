// The fields of a head.

ghost use Rattle.std.specs.Prelude.{◌≡◌, ◌<◌, [], IfOk, IfSome, length, map, option_map};
ghost use Rattle.std.specs.List.{list_all};
ghost use Rattle.std.specs.Option.{option_copied};
ghost use Rattle.http_heads.specs.Fields.{AreFields, fields_made, is_field, is_named, last_field};
ghost use Rattle.http_heads.specs.Fields.{last_place, last_value, named};

use crate::field::is_field;
use px_bytes::{M, Pairs, Text, Texts, same_name};
use std::alloc::Global;
use std::marker::Model;

/// At most 100 fields in their order, with the spelling of their names.
#[derive(Drop)]
pub struct Fields {
    pub(crate) list: Vec<(Text, Text)>,
}

impl Model for Fields {
    ghost use Rattle.std.specs.Prelude.{List};
    ghost use Rattle.http_heads.specs.Fields.{AreFields, Pair};

    ghost Value = { List Pair };

    ghost view = { λ f. f.list.items };

    ghost invariant = { λ f. AreFields f.list.items };
}

// Whether a field has the name, whatever the case of its letters.
pub(crate) fn is_named(name: &[u8], field: &(Text, Text)) -> bool
    ensures { result ≡ is_named name.now field.now }
{
    same_name(field.0.as_bytes(), name)
}

fn are_all_fields(pairs: &[(Text, Text)]) -> bool
    ensures { result ≡ list_all is_field pairs.now }
{
    pairs
        .iter()
        .all(|pair| is_field(pair.0.as_bytes(), pair.1.as_bytes()))
}

// The same names and values.
fn copied(alloc: Global, pairs: &[(Text, Text)]) -> M<Vec<(Text, Text)>>
    ensures { IfOk result (λ list. list.items ≡ pairs.now) }
{
    let mut list = Vec::new(alloc);
    for pair in pairs {
        list.push((pair.0.copy()?, pair.1.copy()?))?;
    }
    Ok(list)
}

impl Fields {
    /// No fields, which takes no memory.
    pub fn new(alloc: Global) -> Fields
        ensures { result ≡ [] }
    {
        Fields {
            list: Vec::new(alloc),
        }
    }

    /// These names and values; none where no head can have them.
    pub fn of(pairs: Vec<(Text, Text)>) -> Option<Fields>
        ensures { result ≡ fields_made pairs.items }
    {
        if pairs.len() <= 100 && are_all_fields(&pairs) {
            return Some(Fields { list: pairs });
        }
        None
    }

    pub fn copy(&self, alloc: Global) -> M<Fields>
        ensures { IfOk result (λ fields. fields ≡ self.now) }
    {
        let list = copied(alloc, &self.list)?;
        Ok(Fields { list })
    }

    /// All of them, each a name and a value.
    pub fn as_slice(&self) -> &[(Text, Text)]
        ensures value { result.now ≡ self.now }
        ensures are_fields { AreFields result.now }
    {
        &self.list
    }

    // The place of the last field of a name.
    pub(crate) fn last_place(&self, name: &[u8]) -> Option<usize>
        ensures place { result ≡ last_place name.now self.now }
        ensures within { IfSome result (λ at. at < length self.now) }
    {
        let mut last = None;
        for at in 0..self.list.len() {
            if is_named(name, &self.list[at]) {
                last = Some(at);
            }
        }
        last
    }

    /// The value of the last field of a name.
    pub fn value(&self, name: &[u8]) -> Option<&Text>
        ensures { option_map (λ v. v.now) result ≡ last_value name.now self.now }
    {
        let at = self.last_place(name)?;
        Some(&self.list[at].1)
    }

    /// The last field of a name.
    pub fn last(&self, name: &[u8]) -> Option<&(Text, Text)>
        ensures { option_copied result ≡ last_field name.now self.now }
    {
        let at = self.last_place(name)?;
        Some(&self.list[at])
    }

    /// How many fields have a name.
    pub fn count(&self, name: &[u8]) -> usize
        ensures { result ≡ length (named name.now self.now) }
    {
        self.list
            .iter()
            .filter(|field| is_named(name, field))
            .count()
    }

    /// The values of all fields of a name.
    pub fn values(&self, alloc: Global, name: &[u8]) -> M<Texts>
        ensures { IfOk result (λ vs. vs ≡ map (λ f. f.1) (named name.now self.now)) }
    {
        let mut values = Texts::new(alloc);
        for field in &self.list {
            if is_named(name, field) {
                values.push(field.1.copy()?)?;
            }
        }
        Ok(values)
    }

    /// The names of all fields.
    pub fn names(&self, alloc: Global) -> M<Texts>
        ensures { IfOk result (λ ns. ns ≡ map (λ f. f.0) self.now) }
    {
        let mut names = Texts::new(alloc);
        for field in &self.list {
            names.push(field.0.copy()?)?;
        }
        Ok(names)
    }
}
