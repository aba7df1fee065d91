// Pools.

ghost use Rattle.std.specs.Prelude.{◌≡◌, IfOk, map};
ghost use Rattle.std.specs.List.{list_any};
ghost use Rattle.pools.specs.Pools.{AreMembers, PoolState, new_pool, has_addr, with_mark, addr_at};
ghost use Rattle.pools.specs.Pools.{up, up_count};
ghost use Rattle.pools.specs.Groups.{IsFloor};
ghost use Rattle.pools.specs.Selection.{after_selection, in_turn, of_addr, selected};
ghost use Rattle.pools.specs.declared.member.Wanted.TheVariants.{Any};

use crate::groups::floor;
use crate::turn::{Turn, by_running_sums, of_addr, place, total};
use crate::{Marked, Member, Members, Method, Wanted};
use px_bytes::{Addr, M};
use std::alloc::Global;
use std::marker::Model;

/// Members that are up or down, the counter by which they are taken in turn, and from which priority
/// on, which changes with the marks alone.
#[derive(Drop)]
pub struct Pool {
    method: Method,
    members: Vec<Marked>,
    counter: u64,
    min_active: u32,
    floor: u8,
}

impl Model for Pool {
    ghost Value = { PoolState };

    ghost view = { λ p.
        record {
          method = p.method;
          members = p.members.items;
          counter = p.counter;
          min_active = p.min_active;
        } };

    ghost invariant = { λ p.
        AreMembers (map (λ m. m.member) p.members.items)
        × IsFloor p.min_active p.members.items p.floor };
}

impl Pool {
    /// A pool of these members, all up. A group serves where fewer than `min_active` members are up in
    /// the groups of a higher priority; with 0 all groups serve.
    pub fn new(alloc: Global, method: Method, members: Members, min_active: u32) -> M<Pool>
        requires { AreMembers members }
        ensures { IfOk result (λ pool. pool ≡ new_pool method members min_active) }
    {
        let members = all_up(alloc, members.as_slice())?;
        let floor = floor(min_active, &members);
        Ok(Pool {
            method,
            members,
            counter: 0,
            min_active,
            floor,
        })
    }

    /// The same pool once more.
    pub fn copy(&self, alloc: Global) -> M<Pool>
        ensures { IfOk result (λ pool. pool ≡ self.now) }
    {
        let members = self.members.iter().copied().collect(alloc)?;
        Ok(Pool {
            method: self.method,
            members,
            counter: self.counter,
            min_active: self.min_active,
            floor: self.floor,
        })
    }

    /// The place of the member that a selection would take. It takes no memory.
    pub fn peek(&self, wanted: Wanted) -> Option<u32>
        ensures { result ≡ selected self.now wanted }
    {
        match wanted {
            Wanted::Any => self.in_turn(),
            Wanted::Wish(addr) => self.of_addr(addr).or(self.in_turn()),
            Wanted::Only(addr) => self.of_addr(addr),
        }
    }

    /// The place of the member that is taken. It takes no memory.
    pub fn select(&mut self, wanted: Wanted) -> Option<u32>
        ensures place { result ≡ selected self.old wanted }
        ensures after { self.new ≡ after_selection self.old wanted }
    {
        match wanted {
            Wanted::Any => self.take_turn(),
            Wanted::Wish(addr) => match self.of_addr(addr) {
                Some(at) => Some(at),
                None => self.take_turn(),
            },
            Wanted::Only(_) => self.peek(wanted),
        }
    }

    /// Marks a member up or down, where there is one of this address. It goes through the members once
    /// for each priority up to the least of which a group serves.
    pub fn mark(&mut self, member: Addr, up: bool) -> bool
        ensures there { result ≡ list_any (has_addr member) self.old.members }
        ensures marked { self.new
            ≡ record self.old { members = with_mark member up self.old.members } }
    {
        match place(&self.members, member) {
            Some(at) => {
                self.members[at].up = up;
                self.floor = floor(self.min_active, &self.members);
                true
            }
            None => false,
        }
    }

    /// The address at a place, in the order of the file.
    pub fn member(&self, at: u32) -> Option<Addr>
        ensures { result ≡ addr_at self.now at }
    {
        self.members
            .get(at as usize)
            .map(|marked| marked.member.addr)
    }

    pub fn up_count(&self) -> u32
        ensures { result ≡ up_count self.now }
    {
        self.members.iter().filter(|marked| marked.up).count() as u32
    }

    // The member of an address, where it is up.
    fn of_addr(&self, addr: Addr) -> Option<u32>
        ensures { result ≡ of_addr self.now addr }
    {
        of_addr(&self.members, addr)
    }

    // The member whose turn it is.
    fn in_turn(&self) -> Option<u32>
        ensures { result ≡ in_turn self.now }
    {
        let turn = Turn {
            method: self.method,
            floor: self.floor,
        };
        let total = total(turn, &self.members);
        if total == 0 {
            return None;
        }
        by_running_sums(turn, &self.members, self.counter % total)
    }

    // Takes the member whose turn it is.
    fn take_turn(&mut self) -> Option<u32>
        ensures place { result ≡ selected self.old Any }
        ensures after { self.new ≡ after_selection self.old Any }
    {
        let at = self.in_turn()?;
        self.counter = self.counter.wrapping_add(1);
        Some(at)
    }
}

// The members, each up.
fn all_up(alloc: Global, members: &[Member]) -> M<Vec<Marked>>
    ensures { IfOk result (λ marked. marked.items ≡ map up members.now) }
{
    let up = members.iter().map(|member| Marked {
        member: *member,
        up: true,
    });
    Ok(up.collect(alloc)?)
}
