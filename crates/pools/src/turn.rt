// Whose turn it is among members.

ghost use Rattle.std.specs.Prelude.{◌≡◌, ◌≤◌, ◌<◌, ◌&&◌, IfSome, length, sum_by, position};
ghost use Rattle.pools.specs.Pools.{has_addr};
ghost use Rattle.pools.specs.Groups.{weight_from};
ghost use Rattle.pools.specs.Selection.{by_running_sums};

use crate::{Marked, Method};
use px_bytes::Addr;

/// How members are taken in turn: by which method, and from which priority on.
#[derive(Clone, Copy)]
pub(crate) struct Turn {
    pub method: Method,
    pub floor: u8,
}

/// How often a member is taken in a round.
fn weight(turn: Turn, marked: &Marked) -> u64
    ensures weight { result ≡ weight_from turn.method turn.floor marked.now }
    ensures small { result ≤ 255 }
{
    match turn.method {
        _ if !marked.up || marked.member.priority < turn.floor => 0,
        Method::RoundRobin => 1,
        Method::Ratio => u64::from(marked.member.ratio),
    }
}

/// How many selections are a round.
pub(crate) fn total(turn: Turn, members: &[Marked]) -> u64
    requires { length members.now ≤ 1000 }
    ensures { result ≡ sum_by (weight_from turn.method turn.floor) members.now }
{
    let mut total = 0;
    for marked in members {
        total += weight(turn, marked);
    }
    total
}

/// The first place at which the running sum of the weights passes a number.
pub(crate) fn by_running_sums(turn: Turn, members: &[Marked], n: u64) -> Option<u32>
    requires { length members.now ≤ 1000 }
    ensures { result
        ≡ by_running_sums (weight_from turn.method turn.floor) members.now n }
{
    let mut left = n;
    for (at, marked) in members.iter().enumerate() {
        let weight = weight(turn, marked);
        if left < weight {
            return Some(at as u32);
        }
        left -= weight;
    }
    None
}

/// The place of the member of an address.
pub(crate) fn place(members: &[Marked], addr: Addr) -> Option<usize>
    ensures place { result ≡ position (has_addr addr) members.now }
    ensures inside { IfSome result (λ at. at < length members.now) }
{
    members.iter().position(|marked| has_addr(addr, marked))
}

/// The member of an address, where it is up.
pub(crate) fn of_addr(members: &[Marked], addr: Addr) -> Option<u32>
    requires { length members.now ≤ 1000 }
    ensures { result ≡ position (λ marked. has_addr addr marked && marked.up) members.now }
{
    place_up(members, addr).map(|at| at as u32)
}

fn place_up(members: &[Marked], addr: Addr) -> Option<usize>
    ensures place { result ≡ position (λ marked. has_addr addr marked && marked.up) members.now }
    ensures inside { IfSome result (λ at. at < length members.now) }
{
    members
        .iter()
        .position(|marked| has_addr(addr, marked) && marked.up)
}

fn has_addr(addr: Addr, marked: &Marked) -> bool
    ensures { result ≡ has_addr addr marked.now }
{
    marked.member.addr == addr
}
