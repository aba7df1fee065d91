// Which members a pool may have.

ghost use Rattle.std.specs.Prelude.{◌≡◌, ◌↔◌, IsTrue};
ghost use Rattle.std.specs.List.{list_all, list_any};
ghost use Rattle.pools.specs.Pools.{AreMembers, are_apart, priority_fits, ratio_fits, same_addr};

use crate::{Member, Members};
use px_bytes::Addr;

const MOST_MEMBERS: usize = 1000;

const MOST_RATIO: u8 = 100;

/// The greatest priority of a member.
pub(crate) const MOST_PRIORITY: u8 = 100;

/// Whether these may be the members of a pool: 1,000 at most, each with a ratio from 1 to 100 and a
/// priority of 100 at most, and no address twice. It compares each two of them.
pub fn are_members(members: &Members) -> bool
    ensures { IsTrue result ↔ AreMembers members.now }
{
    let members = members.as_slice();
    members.len() <= MOST_MEMBERS
        && ratios_fit(members)
        && priorities_fit(members)
        && are_apart(members)
}

fn ratios_fit(members: &[Member]) -> bool
    ensures { result ≡ list_all ratio_fits members.now }
{
    members
        .iter()
        .all(|member| 1 <= member.ratio && member.ratio <= MOST_RATIO)
}

fn priorities_fit(members: &[Member]) -> bool
    ensures { result ≡ list_all priority_fits members.now }
{
    members
        .iter()
        .all(|member| member.priority <= MOST_PRIORITY)
}

fn are_apart(members: &[Member]) -> bool
    ensures { result ≡ are_apart members.now }
{
    for (at, member) in members.iter().enumerate() {
        if has_addr(&members[at + 1..], member.addr) {
            return false;
        }
    }
    true
}

fn has_addr(members: &[Member], addr: Addr) -> bool
    ensures { result ≡ list_any (λ other. same_addr addr other.addr) members.now }
{
    members.iter().any(|other| addr == other.addr)
}
