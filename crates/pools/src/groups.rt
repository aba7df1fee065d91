// Groups of members: those of equal priority.

ghost use Rattle.std.specs.Prelude.{◌≡◌, ◌≤◌, ◌==◌, ℕ, length, count_by, nat_le};
ghost use Rattle.pools.specs.Groups.{IsFloor};
ghost use Rattle.pools.specs.Selection.{group_serves, is_above};

use crate::Marked;
use crate::limits::MOST_PRIORITY;

/// The least priority of which a group serves, and 101 where none does.
pub(crate) fn floor(min_active: u32, members: &[Marked]) -> u8
    requires { length members.now ≤ 1000 }
    ensures { IsFloor min_active members.now result }
{
    let mut priority = 0;
    while priority <= MOST_PRIORITY && !serves(min_active, members, priority) {
        priority += 1;
    }
    priority
}

fn serves(min_active: u32, members: &[Marked], priority: u8) -> bool
    requires { length members.now ≤ 1000 }
    ensures { result ≡ group_serves min_active members.now priority }
{
    min_active == 0 || count_above(members, priority) < min_active
}

fn count_above(members: &[Marked], priority: u8) -> u32
    requires { length members.now ≤ 1000 }
    ensures { result ≡ count_by (is_above priority) members.now }
{
    members
        .iter()
        .filter(|marked| marked.up && priority < marked.member.priority)
        .count() as u32
}
