// Data groups.

ghost use Rattle.std.specs.Prelude.{◌≡◌, ℕ, List};
ghost use Rattle.data_groups.specs.Groups.{DataGroup, MakesGroup};
ghost use Rattle.data_groups.specs.Index.{IndexesRows, first_with, place_of};
ghost use Rattle.data_groups.specs.Matches.{equal_row};
ghost use Rattle.data_groups.specs.Networks.{longest_below};
ghost use Rattle.data_groups.specs.declared.kind.GroupKind.TheVariants.{Ip};

use crate::key::{key_bytes, number_bytes, prefix_bytes};
use crate::places::Places;
use crate::{GroupFault, GroupKind};
use px_bytes::{Pairs, Text, read_whole};
use std::alloc::Global;
use std::marker::Model;
use tcl_encodings::read_address;

/// Keys with their values, in the order of the file.
pub type GroupRows = Pairs;

/// Rows of one kind of keys.
#[derive(Drop)]
pub struct Group {
    kind: GroupKind,
    rows: GroupRows,
    // For the bytes of each key the first row that has it.
    places: Places,
}

impl Model for Group {
    ghost Value = { DataGroup };

    ghost view = { λ g. record { kind = g.kind; rows = g.rows } };

    ghost invariant = { λ g.
        (bytes : List ℕ) → place_of g.places bytes ≡ first_with g.kind g.rows bytes };
}

impl Group {
    /// The group of these rows, where each key is of the kind. It finds a key by an index, which
    /// takes as many bytes as the keys.
    pub fn new(alloc: Global, kind: GroupKind, rows: GroupRows) -> Result<Group, GroupFault>
        ensures { MakesGroup kind rows result }
    {
        let places = places_of(alloc, kind, rows.as_slice())?;
        Ok(Group { kind, rows, places })
    }

    pub fn kind(&self) -> GroupKind
        ensures { result ≡ self.now.kind }
    {
        self.kind
    }

    /// The rows in the order of the file.
    pub fn rows(&self) -> &GroupRows
        ensures { result.now ≡ self.now.rows }
    {
        &self.rows
    }

    /// The row whose key equals the item. It takes no memory, and goes down a tree once, or once for
    /// each length of a network.
    pub(crate) fn equal_row(&self, item: &[u8]) -> Option<usize>
        ensures { result ≡ equal_row self.now.kind item.now self.now.rows }
    {
        match self.kind {
            GroupKind::String => self.places.find(item),
            GroupKind::Ip => self.longest_network(read_address(item)?),
            GroupKind::Integer => self.places.find(&number_bytes(read_whole(item)?)),
        }
    }

    // The row of the longest network that has an address.
    fn longest_network(&self, ip: u32) -> Option<usize>
        requires { self.now.kind ≡ Ip }
        ensures { result ≡ longest_below 33 ip self.now.rows }
    {
        for bits in (0..33u8).rev() {
            let found = self.places.find(&prefix_bytes(bits, ip));
            if found.is_some() {
                return found;
            }
        }
        None
    }
}

// The first row of each key.
fn places_of(alloc: Global, kind: GroupKind, rows: &[(Text, Text)]) -> Result<Places, GroupFault>
    ensures { IndexesRows kind rows.now result }
{
    let mut places = Places::new(alloc);
    for (at, row) in rows.iter().enumerate() {
        let Some(bytes) = key_bytes(alloc, kind, row.0.as_bytes())? else {
            return Err(GroupFault::BadKey(at));
        };
        places.add(bytes, at)?;
    }
    Ok(places)
}
