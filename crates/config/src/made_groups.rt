// The data groups and pools that rules name.

ghost use Rattle.std.specs.Prelude.{◌≡◌, IfOk, map};
ghost use Rattle.config.specs.Filled.{made_class, made_classes, made_groups, made_pool, made_pools};
ghost use Rattle.config.specs.Filled.{may_be_members, members_of};
ghost use Rattle.std.specs.Prelude.{true};
ghost use Rattle.pools.specs.Pools.{new_pool};

use crate::config::{GroupSettings, PoolSettings, Settings};
use data_groups::{Group, GroupFault, GroupRows};
use irule_net::{Groups, NamedGroup, PoolMembers};
use pools::{Member, Members, Pool, are_members};
use px_bytes::{Addr, M, Memory, Seq, Text};
use shared_store::{NamedPool as SharedPool, Pools};
use std::alloc::Global;

/// The data groups and pools that rules name, and the pools of the store.
#[derive(Drop)]
pub(crate) struct Made {
    pub groups: Groups,
    pub pools: Pools,
}

/// The data groups and pools of a configuration, if each key is of its group's kind and the members
/// of each pool may be.
pub(crate) fn made_groups(alloc: Global, settings: &Settings) -> M<Option<Made>>
    ensures { IfOk result (λ groups. groups ≡ made_groups settings.now) }
{
    let Some(classes) = classes_of(alloc, settings.groups.as_slice())? else {
        return Ok(None);
    };
    let Some(pools) = shared_pools(alloc, settings.pools.as_slice())? else {
        return Ok(None);
    };
    let named = pools_of(alloc, settings.pools.as_slice())?;
    let groups = Groups {
        classes,
        pools: named,
    };
    Ok(Some(Made { groups, pools }))
}

fn shared_pools(alloc: Global, pools: &[PoolSettings]) -> M<Option<Pools>>
    ensures { IfOk result (λ made. made ≡ made_pools pools.now) }
{
    let mut made = Pools::new(alloc);
    for named in pools {
        let Some(pool) = shared_pool(alloc, named)? else {
            return Ok(None);
        };
        made.push(pool)?;
    }
    Ok(Some(made))
}

fn shared_pool(alloc: Global, named: &PoolSettings) -> M<Option<SharedPool>>
    ensures { IfOk result (λ pool. pool ≡ made_pool named.now) }
{
    if !may_be_members(&named.members) {
        return Ok(None);
    }
    let name = named.name.copy()?;
    let pool = pool_of(alloc, named)?;
    Ok(Some(SharedPool { name, pool }))
}

fn may_be_members(members: &Members) -> bool
    ensures { result ≡ may_be_members members.now }
{
    are_members(members)
}

fn pool_of(alloc: Global, named: &PoolSettings) -> M<Pool>
    requires { may_be_members named.now.members ≡ true }
    ensures { IfOk result (λ pool. pool ≡ new_pool named.now.method named.now.members
        named.now.min_active) }
{
    let mut members = Members::new(alloc);
    for member in named.members.as_slice() {
        members.push(*member)?;
    }
    Pool::new(alloc, named.method, members, named.min_active)
}

fn classes_of(alloc: Global, groups: &[GroupSettings]) -> M<Option<Seq<NamedGroup>>>
    ensures { IfOk result (λ classes. classes ≡ made_classes groups.now) }
{
    let mut classes = Seq::new(alloc);
    for group in groups {
        let Some(class) = class_of(alloc, group)? else {
            return Ok(None);
        };
        classes.push(class)?;
    }
    Ok(Some(classes))
}

fn class_of(alloc: Global, named: &GroupSettings) -> M<Option<NamedGroup>>
    ensures { IfOk result (λ class. class ≡ made_class named.now) }
{
    let name = named.name.copy()?;
    let rows = copied(alloc, named.rows.as_slice())?;
    match Group::new(alloc, named.kind, rows) {
        Ok(group) => Ok(Some(NamedGroup { name, group })),
        Err(GroupFault::BadKey(_)) => Ok(None),
        Err(GroupFault::Memory) => Err(Memory),
    }
}

fn copied(alloc: Global, rows: &[(Text, Text)]) -> M<GroupRows>
    ensures { IfOk result (λ copy. copy ≡ rows.now) }
{
    let mut copy = Seq::new(alloc);
    for row in rows {
        copy.push((row.0.copy()?, row.1.copy()?))?;
    }
    Ok(copy)
}

fn pools_of(alloc: Global, pools: &[PoolSettings]) -> M<Seq<PoolMembers>>
    ensures { IfOk result (λ made. made ≡ map members_of pools.now) }
{
    let mut made = Seq::new(alloc);
    for pool in pools {
        made.push(PoolMembers {
            name: pool.name.copy()?,
            members: addresses(alloc, pool.members.as_slice())?,
        })?;
    }
    Ok(made)
}

fn addresses(alloc: Global, members: &[Member]) -> M<Seq<Addr>>
    ensures { IfOk result (λ made. made ≡ map (λ m. m.addr) members.now) }
{
    let mut made = Seq::new(alloc);
    for member in members {
        made.push(member.addr)?;
    }
    Ok(made)
}
