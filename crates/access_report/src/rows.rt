// The rows of a report.

ghost use Rattle.std.specs.Prelude.{◌≡◌, [], flat_map, IfOk, List, map, OnOk, ℕ};
ghost use Rattle.std.specs.Cmp.Lexicographic.{slice_cmp};
ghost use Rattle.std.specs.List.Sorted.{IsStrictlySortedBy};
ghost use Rattle.std.specs.Map.{lookup};
ghost use Rattle.std.specs.Ordering.{nat_cmp};
ghost use Rattle.std.specs.Str.{bytes_eq};
ghost use Rattle.access_report.specs.Table.{counts_row};
ghost use Rattle.access_report.specs.Trees.{entry_lines, names_of, rows_of};
ghost use Rattle.access_report.specs.Raising.{raised};
ghost use Rattle.access_report.specs.declared.counts.ServerCounts.{ServerCounts};

use crate::ServerCounts;
use crate::table::counts_row;
use px_bytes::{M, Text};
use std::alloc::Global;
use std::collections::BTreeMap;
use std::marker::Model;

/// Names with their counts, in the order of their bytes.
#[derive(Drop)]
pub struct ServerRows {
    tree: BTreeMap<Vec<u8>, ServerCounts>,
}

impl Model for ServerRows {
    ghost Value = { List (List ℕ × ServerCounts) };

    ghost view = { λ rows. map (λ e. (e.0.items, e.1)) rows.tree.entries };
}

impl ServerRows {
    pub fn new(alloc: Global) -> ServerRows
        ensures { result ≡ [] }
    {
        ServerRows {
            tree: BTreeMap::new(alloc),
        }
    }

    /// Adds to what a name has.
    pub fn raise(&mut self, alloc: Global, name: &[u8], more: ServerCounts) -> M<()>
        ensures { OnOk result ((asked : List ℕ) → lookup (bytes_eq asked) self.new
            ≡ raised self.old name.now more asked) }
    {
        if let Some(counts) = self.tree.get_mut(name) {
            return counts.raise(more);
        }
        self.tree.insert(Vec::from_slice(alloc, name)?, more)?;
        Ok(())
    }

    /// Their lines, in order.
    pub fn lines(&self, alloc: Global) -> M<Text>
        ensures lines { IfOk result (λ text. text
            ≡ flat_map (λ row. counts_row row.0 row.1) self.now) }
        ensures sorted { IfOk result (λ text.
            IsStrictlySortedBy (slice_cmp nat_cmp) (map (λ row. row.0) self.now)) }
    {
        tree_lines(alloc, &self.tree)
    }
}

fn tree_lines(alloc: Global, tree: &BTreeMap<Vec<u8>, ServerCounts>) -> M<Text>
    ensures lines { IfOk result (λ text. text ≡ entry_lines tree.now.entries) }
    ensures sorted { IfOk result (λ text. IsStrictlySortedBy (slice_cmp nat_cmp)
        (names_of (rows_of tree.now.entries))) }
{
    let mut text = Text::empty(alloc);
    for (name, counts) in tree.iter() {
        text.push(counts_row(alloc, name, *counts)?.as_bytes())?;
    }
    Ok(text)
}
