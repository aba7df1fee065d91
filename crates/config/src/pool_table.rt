// What the table of a pool configures.

ghost use Rattle.std.specs.Prelude.{◌≡◌, ◌++◌, IfOk, OnOk};
ghost use Rattle.toml.specs.View.{array_view, table_view, view};
ghost use Rattle.config.specs.Documents.{items_at};
ghost use Rattle.config.specs.Keys as key;
ghost use Rattle.config.specs.Settings.{each, member_item, member_of, method_of, pool_item};
ghost use Rattle.config.specs.Settings.{pool_of, priority_of, ratio_of};

use crate::config::PoolSettings;
use crate::keys::{ADDR, MEMBERS, METHOD, NAME, PRIORITY, RATIO, min_active};
use crate::read::{addr_at, given, member_count, whole_at};
use crate::table::array_at;
use crate::words::chosen;
use pools::{Member, Members, Method};
use px_bytes::{M, Seq};
use std::alloc::Global;
use toml::value::Array;
use toml::{Table, Value};

fn method_of(word: Option<usize>) -> Method
    ensures { result ≡ method_of word }
{
    match word {
        Some(1) => Method::Ratio,
        _ => Method::RoundRobin,
    }
}

fn ratio_of(number: u32) -> u8
    ensures { result ≡ ratio_of number }
{
    if number <= 100 { number as u8 } else { 1 }
}

fn priority_of(number: u32) -> u8
    ensures { result ≡ priority_of number }
{
    if number <= 100 { number as u8 } else { 0 }
}

fn member_of(table: &Table) -> Member
    ensures { result ≡ member_of (table_view table.now) }
{
    Member {
        addr: addr_at(&ADDR, table),
        ratio: ratio_of(whole_at(&RATIO, table)),
        priority: priority_of(whole_at(&PRIORITY, table)),
    }
}

fn push_member(members: &mut Members, value: &Value) -> M<()>
    ensures { OnOk result (members.new ≡ members.old ++ member_item (view value.now)) }
{
    match value.as_table() {
        Some(table) => members.push(member_of(table)),
        None => Ok(()),
    }
}

fn members_of(alloc: Global, values: &Array) -> M<Members>
    ensures { IfOk result (λ xs. xs ≡ each member_item (array_view values.now)) }
{
    let mut members = Members::new(alloc);
    for value in values {
        push_member(&mut members, value)?;
    }
    Ok(members)
}

fn members_at(alloc: Global, table: &Table) -> M<Members>
    ensures { IfOk result (λ xs.
        xs ≡ each member_item (items_at key.members (table_view table.now))) }
{
    match array_at(table, MEMBERS.name) {
        Some(values) => members_of(alloc, values),
        None => Ok(Members::new(alloc)),
    }
}

fn pool_of(alloc: Global, table: &Table) -> M<PoolSettings>
    ensures { IfOk result (λ pool. pool ≡ pool_of (table_view table.now)) }
{
    Ok(PoolSettings {
        name: given(alloc, &NAME, table)?,
        method: method_of(chosen(&METHOD, table)),
        members: members_at(alloc, table)?,
        min_active: whole_at(&min_active(member_count(table)), table),
    })
}

fn push_pool(pools: &mut Seq<PoolSettings>, alloc: Global, value: &Value) -> M<()>
    ensures { OnOk result (pools.new ≡ pools.old ++ pool_item (view value.now)) }
{
    match value.as_table() {
        Some(table) => pools.push(pool_of(alloc, table)?),
        None => Ok(()),
    }
}

/// The pools that the tables of an array configure.
pub(crate) fn pools_of(alloc: Global, values: &Array) -> M<Seq<PoolSettings>>
    ensures { IfOk result (λ xs. xs ≡ each pool_item (array_view values.now)) }
{
    let mut pools = Seq::new(alloc);
    for value in values {
        push_pool(&mut pools, alloc, value)?;
    }
    Ok(pools)
}
