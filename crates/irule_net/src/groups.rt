// The data groups and pools that rules name.

ghost use Rattle.std.specs.Prelude.{◌≡◌, option_map};
ghost use Rattle.std.specs.Option.{option_copied};
ghost use Rattle.irule_net.specs.Groups.{class_in, has_addr, has_member, has_pool, members_in};

use data_groups::Group;
use px_bytes::{Addr, Seq, Text};

/// A data group and its name.
#[derive(Drop)]
pub struct NamedGroup {
    pub name: Text,
    pub group: Group,
}

/// The addresses of a pool's members, and its name.
#[derive(Drop)]
pub struct PoolMembers {
    pub name: Text,
    pub members: Seq<Addr>,
}

/// Data groups and pools, in the order of the file.
#[derive(Drop)]
pub struct Groups {
    pub classes: Seq<NamedGroup>,
    pub pools: Seq<PoolMembers>,
}

/// The first data group of a name.
pub(crate) fn class_in<'a>(name: &[u8], classes: &'a [NamedGroup]) -> Option<&'a Group>
    ensures { option_copied result ≡ class_in name.now classes.now }
{
    let class = classes.iter().find(|class| name == class.name.as_bytes())?;
    Some(&class.group)
}

/// Whether there is a pool of a name.
pub(crate) fn has_pool(name: &[u8], pools: &[PoolMembers]) -> bool
    ensures { result ≡ has_pool name.now pools.now }
{
    pools.iter().any(|pool| name == pool.name.as_bytes())
}

/// Whether the first pool of a name has a member of this address.
pub(crate) fn has_member(name: &[u8], addr: Addr, pools: &[PoolMembers]) -> bool
    ensures { result ≡ has_member name.now addr pools.now }
{
    match members_in(name, pools) {
        Some(members) => has_addr(addr, members),
        None => false,
    }
}

// The addresses of the members of the first pool of a name.
fn members_in<'a>(name: &[u8], pools: &'a [PoolMembers]) -> Option<&'a [Addr]>
    ensures { option_map (λ members. members.now) result ≡ members_in name.now pools.now }
{
    let pool = pools.iter().find(|pool| name == pool.name.as_bytes())?;
    Some(pool.members.as_slice())
}

fn has_addr(addr: Addr, members: &[Addr]) -> bool
    ensures { result ≡ has_addr addr members.now }
{
    members
        .iter()
        .any(|member| member.ip == addr.ip && member.port == addr.port)
}
