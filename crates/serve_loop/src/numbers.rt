// Numbers in order, each once.

ghost use Rattle.std.specs.Prelude.{◌≡◌, ◌<◌, ℕ, List, [], Some, length, nat_eq, slice_get, OnOk, OnErr};
ghost use Rattle.serve_loop.specs.Added.{added};
ghost use Rattle.indexmap.specs.IndexSet.{insert_key};

use indexmap::IndexSet;
use px_bytes::M;
use std::alloc::Global;
use std::marker::Model;

/// Numbers in the order in which they were added first.
#[derive(Drop)]
pub struct Numbers {
    set: IndexSet<u32>,
}

impl Model for Numbers {
    ghost Value = { List ℕ };

    ghost view = { λ n. n.set.keys };
}

impl Numbers {
    pub fn new(alloc: Global) -> Numbers
        ensures { result ≡ [] }
    {
        Numbers {
            set: IndexSet::new(alloc),
        }
    }

    pub fn len(&self) -> usize
        ensures { result ≡ length self.now }
    {
        self.set.len()
    }

    /// The number at a place, the first being at 0.
    pub fn get(&self, at: usize) -> Option<u32>
        ensures { result ≡ slice_get self.now at }
    {
        self.set.get_index(at).copied()
    }

    /// The number at a place that there is.
    pub fn number(&self, at: usize) -> u32
        requires { at < length self.now }
        ensures { slice_get self.now at ≡ Some result }
    {
        match self.set.get_index(at) {
            Some(number) => *number,
            None => unreachable!(),
        }
    }

    /// Adds a number at the end, unless it is there.
    pub fn add(&mut self, number: u32) -> M<()>
        ensures ok { OnOk result (self.new ≡ insert_key nat_eq self.old number) }
        ensures err { OnErr result (self.new ≡ self.old) }
    {
        self.set.insert(number)?;
        Ok(())
    }

    /// Adds numbers at the end, each unless it is there.
    pub fn add_all(&mut self, numbers: &[u32]) -> M<()>
        ensures { OnOk result (self.new ≡ added self.old numbers.now) }
    {
        for number in numbers {
            self.add(*number)?;
        }
        Ok(())
    }

    /// Takes all away.
    pub fn clear(&mut self)
        ensures { self.new ≡ [] }
    {
        self.set.clear();
    }
}
