// Deadlines by number.

ghost use Rattle.std.specs.Prelude.{◌≡◌, ◌-◌, ◌++◌, ◌<◌, ℕ, [], None, Some, IfSome, IfNone, OnOk};
ghost use Rattle.std.specs.Prelude.{OnErr, is_some, length, replicate, slice_set};
ghost use Rattle.index_lists.specs.Wheel.{IsDue, IsNext, NoneDue, due_of};

use crate::tree::{leaf_of_root, set};
use crate::wider::wider;
use std::alloc::{AllocError, Global};
use std::marker::Model;

/// A deadline or none for each number below a reserved one: a timer wheel, exact to the moment. The least
/// deadline is known at once, and a change costs a step for each doubling of the numbers at most.
#[derive(Drop)]
pub struct Wheel {
    nodes: Vec<Option<u64>>,
    size: usize,
}

impl Model for Wheel {
    ghost use Rattle.std.specs.Prelude.{◌<◌, drop};
    ghost use Rattle.index_lists.specs.Least.{IsTree};
    ghost use Rattle.index_lists.specs.Wheel.{Wheel as Deadlines};

    ghost Value = { Deadlines };

    ghost view = { λ w. record { dues = drop w.size w.nodes.items } };

    ghost invariant = { λ w. IsTree w.size w.nodes.items × (w.size < 4294967296) };
}

impl Wheel {
    /// No number is reserved, which takes no memory.
    pub fn new(alloc: Global) -> Self
        ensures { result.dues ≡ [] }
    {
        Wheel {
            nodes: Vec::new(alloc),
            size: 0,
        }
    }

    /// From now on the numbers below this one may have deadlines; those that have one keep it. No later
    /// call with these numbers takes memory. It takes as many steps as there are numbers, and more where some
    /// have deadlines.
    pub fn reserve(&mut self, numbers: u32) -> Result<(), AllocError>
        ensures ok { OnOk result
            (self.new.dues ≡ self.old.dues ++ replicate (numbers - length self.old.dues) None) }
        ensures err { OnErr result (self.new ≡ self.old) }
    {
        let size = numbers as usize;
        if size <= self.size {
            return Ok(());
        }
        let alloc = *self.nodes.allocator();
        let nodes = wider(alloc, &self.nodes[self.size..], size)?;
        *self = Wheel { nodes, size };
        Ok(())
    }

    /// The number has this deadline from now on, whether it had one or not.
    pub fn put(&mut self, id: u32, deadline: u64)
        requires { id < length self.old.dues }
        ensures { self.new.dues ≡ slice_set self.old.dues id (Some deadline) }
    {
        let at = self.size + id as usize;
        set(&mut self.nodes, self.size, at, Some(deadline));
    }

    /// The number has no deadline any more. Whether it had one.
    pub fn cancel(&mut self, id: u32) -> bool
        ensures had { result ≡ is_some (due_of self.old.dues id) }
        ensures dues { self.new.dues ≡ slice_set self.old.dues id None }
    {
        if id as usize >= self.size {
            return false;
        }
        let at = self.size + id as usize;
        let had = self.nodes[at].is_some();
        set(&mut self.nodes, self.size, at, None);
        had
    }

    /// The least deadline.
    pub fn next_due(&self) -> Option<u64>
        ensures some { IfSome result (λ due. IsNext self.now.dues due) }
        ensures none { IfNone result ((id : ℕ) → due_of self.now.dues id ≡ None) }
    {
        if self.size == 0 {
            return None;
        }
        self.nodes[1]
    }

    /// Takes out one number whose deadline has come; which one, where there are several, is free.
    pub fn advance(&mut self, moment: u64) -> Option<u32>
        ensures due { IfSome result (λ id. IsDue self.old.dues moment id) }
        ensures some { IfSome result (λ id. self.new.dues ≡ slice_set self.old.dues id None) }
        ensures none { IfNone result (NoneDue self.old.dues moment) }
        ensures kept { IfNone result (self.new ≡ self.old) }
    {
        if self.next_due()? > moment {
            return None;
        }
        let leaf = leaf_of_root(&self.nodes, self.size);
        set(&mut self.nodes, self.size, leaf, None);
        Some((leaf - self.size) as u32)
    }
}
