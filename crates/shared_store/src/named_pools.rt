// Pools with their names.

ghost use Rattle.std.specs.Prelude.{◌≡◌, ◌++◌, ◌<◌, [], ◌∷◌, length, List, option_map};
ghost use Rattle.std.specs.Prelude.{slice_get};
ghost use Rattle.std.specs.Prelude.{IfOk, OnOk, OnErr, IfSome, false, position};
ghost use Rattle.std.specs.Option.{option_copied};
ghost use Rattle.pools.specs.Pools.{with_mark};
ghost use Rattle.pools.specs.Selection.{after_selection};
ghost use Rattle.shared_store.specs.Store.{has_member, has_name, pool_of, with_pool};
ghost use Rattle.shared_store.specs.declared.named.NamedPool.{NamedPool};

use crate::NamedPool;
use pools::{Pool, Wanted};
use px_bytes::{Addr, M};
use std::alloc::Global;
use std::marker::Model;

/// Pools with their names, in the order of the file.
#[derive(Drop)]
pub struct Pools {
    items: Vec<NamedPool>,
}

impl Model for Pools {
    ghost Value = { List NamedPool };

    ghost view = { λ p. p.items.items };
}

impl Pools {
    pub fn new(alloc: Global) -> Pools
        ensures { result ≡ [] }
    {
        Pools {
            items: Vec::new(alloc),
        }
    }

    /// The same pools once more.
    pub fn copy(&self, alloc: Global) -> M<Pools>
        ensures { IfOk result (λ pools. pools ≡ self.now) }
    {
        copied(alloc, &self.items)
    }

    pub fn len(&self) -> usize
        ensures { result ≡ length self.now }
    {
        self.items.len()
    }

    /// The pool at a place, the first being at 0.
    pub fn get(&self, at: usize) -> Option<&NamedPool>
        ensures { option_map (λ named. named.now) result ≡ slice_get self.now at }
    {
        self.items.get(at)
    }

    /// Adds a pool at the end.
    pub fn push(&mut self, named: NamedPool) -> M<()>
        ensures ok { OnOk result (self.new ≡ self.old ++ named ∷ []) }
        ensures err { OnErr result (self.new ≡ self.old) }
    {
        self.items.push(named)?;
        Ok(())
    }

    /// Takes all pools away.
    pub fn clear(&mut self)
        ensures { self.new ≡ [] }
    {
        self.items.clear();
    }

    /// The first pool of a name.
    pub(crate) fn find(&self, name: &[u8]) -> Option<&Pool>
        ensures { option_copied result ≡ pool_of name.now self.now }
    {
        let at = self.place(name)?;
        Some(&self.items[at].pool)
    }

    /// Goes on from a selection of the first pool of a name.
    pub(crate) fn select(&mut self, name: &[u8], wanted: Wanted)
        ensures { self.new ≡ with_pool name.now (λ pool. after_selection pool wanted) self.old }
    {
        if let Some(at) = self.place(name) {
            self.items[at].pool.select(wanted);
        }
    }

    /// Marks a member of the first pool of a name, where there is one.
    pub(crate) fn mark(&mut self, name: &[u8], member: Addr, up: bool) -> bool
        ensures there { result ≡ has_member member (pool_of name.now self.old) }
        ensures marked { self.new ≡ with_pool name.now
            (λ pool. record pool { members = with_mark member up pool.members }) self.old }
        ensures same { result ≡ false → self.new ≡ self.old }
    {
        match self.place(name) {
            Some(at) => self.items[at].pool.mark(member, up),
            None => false,
        }
    }

    // The place of the first pool of a name.
    fn place(&self, name: &[u8]) -> Option<usize>
        ensures place { result ≡ position (has_name name.now) self.now }
        ensures inside { IfSome result (λ at. at < length self.now) }
    {
        self.items
            .iter()
            .position(|named| name == named.name.as_bytes())
    }
}

fn copied(alloc: Global, pools: &[NamedPool]) -> M<Pools>
    ensures { IfOk result (λ copy. copy ≡ pools.now) }
{
    let mut copy = Pools::new(alloc);
    for named in pools {
        copy.push(named.copy(alloc)?)?;
    }
    Ok(copy)
}
