// The edges of the automaton: which node stands for a node's suffix with a byte in front.

ghost use Rattle.std.specs.Prelude.{◌≡◌, ◌≢◌, ℕ, Some, None, OnOk};
ghost use Rattle.tcl_strings.specs.Automaton.{Entries, edge_at};

use px_bytes::M;
use std::alloc::Global;
use std::collections::BTreeMap;
use std::marker::Model;

/// A function from a node and a byte in front to a node: a tree, so that no choice of keys makes a
/// look-up slow.
#[derive(Drop)]
pub(crate) struct Edges {
    tree: BTreeMap<(usize, u8), usize>,
}

impl Model for Edges {
    ghost Value = { Entries };

    ghost view = { λ e. e.tree.entries };
}

impl Edges {
    /// No edges, which takes no memory.
    pub(crate) fn new(alloc: Global) -> Edges
        ensures { (node byte : ℕ) → edge_at result node byte ≡ None }
    {
        Edges {
            tree: BTreeMap::new(alloc),
        }
    }

    /// The node that an edge leads to.
    pub(crate) fn get(&self, node: usize, byte: u8) -> Option<usize>
        ensures { result ≡ edge_at self.now node byte }
    {
        self.tree.get(&(node, byte)).copied()
    }

    /// Lets the edge of a node and a byte lead to another node.
    pub(crate) fn put(&mut self, node: usize, byte: u8, child: usize) -> M<()>
        ensures here { OnOk result (edge_at self.new node byte ≡ Some child) }
        ensures others { OnOk result ((n b : ℕ) → (n ≡ node → b ≢ byte)
            → edge_at self.new n b ≡ edge_at self.old n b) }
    {
        self.tree.insert((node, byte), child)?;
        Ok(())
    }
}
