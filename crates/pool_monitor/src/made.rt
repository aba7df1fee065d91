// The monitors of a file without faults, and the members that they probe.

ghost use Rattle.std.specs.Prelude.{◌≡◌, ◌*◌, ◌++◌, IfOk, OnOk, map};
ghost use Rattle.toml.specs.View.{array_view, table_view, view};
ghost use Rattle.config.specs.Settings.{each};
ghost use Rattle.config.specs.Texts.{place_of};
ghost use Rattle.pool_monitor.specs.Documents.{pool_place};
ghost use Rattle.pool_monitor.specs.Made.{check_of, http_by, members_at, members_from, monitor_item};
ghost use Rattle.pool_monitor.specs.Made.{members_by, monitor_of, monitors_of, new_member};

use crate::document::probing_at;
use crate::index::{Index, pool_places};
use crate::keys::{INTERVAL, MONITORS, POOL, TIMEOUT, recv_key, send_key};
use crate::monitor::{HttpCheck, Monitor};
use crate::probe::ProbedMember;
use crate::table::{array_at, given, whole_at};
use crate::value::Probing;
use config::PoolSettings;
use pools::Member;
use px_bytes::{M, Seq};
use std::alloc::Global;
use toml::value::Array;
use toml::{Table, Value};

fn check_of(alloc: Global, table: &Table) -> M<HttpCheck>
    ensures { IfOk result (λ check. check ≡ check_of (table_view table.now)) }
{
    Ok(HttpCheck {
        send: given(alloc, &send_key(true), table)?,
        recv: given(alloc, &recv_key(true), table)?,
    })
}

fn http_by(alloc: Global, probing: Probing, table: &Table) -> M<Option<HttpCheck>>
    ensures { IfOk result (λ http. http ≡ http_by probing (table_view table.now)) }
{
    match probing {
        Probing::Http => Ok(Some(check_of(alloc, table)?)),
        _ => Ok(None),
    }
}

fn monitor_of(alloc: Global, table: &Table) -> M<Monitor>
    ensures { IfOk result (λ monitor. monitor ≡ monitor_of (table_view table.now)) }
{
    let interval = whole_at(&INTERVAL, table);
    let timeout = whole_at(&TIMEOUT, table);
    let pool = given(alloc, &POOL, table)?;
    let http = http_by(alloc, probing_at(table), table)?;
    Ok(Monitor {
        pool,
        http,
        interval,
        timeout,
    })
}

fn push_monitor(monitors: &mut Seq<Monitor>, alloc: Global, value: &Value) -> M<()>
    ensures { OnOk result (monitors.new ≡ monitors.old ++ monitor_item (view value.now)) }
{
    match value.as_table() {
        Some(table) => monitors.push(monitor_of(alloc, table)?),
        None => Ok(()),
    }
}

fn monitors_in(alloc: Global, values: &Array) -> M<Seq<Monitor>>
    ensures { IfOk result (λ xs. xs ≡ each monitor_item (array_view values.now)) }
{
    let mut monitors = Seq::new(alloc);
    for value in values {
        push_monitor(&mut monitors, alloc, value)?;
    }
    Ok(monitors)
}

/// The monitors of a file.
pub(crate) fn monitors_of(alloc: Global, top: &Table) -> M<Seq<Monitor>>
    ensures { IfOk result (λ xs. xs ≡ monitors_of (table_view top.now)) }
{
    match array_at(top, MONITORS.name) {
        Some(values) => monitors_in(alloc, values),
        None => Ok(Seq::new(alloc)),
    }
}

// The members of the pool at this place.
fn members_by(pools: &[PoolSettings], at: Option<usize>) -> &[Member]
    ensures { result.now ≡ members_by pools.now at }
{
    match at {
        Some(at) => match pools.get(at) {
            Some(pool) => pool.members.as_slice(),
            None => &[],
        },
        None => &[],
    }
}

// The members of the first pool of a name.
fn members_at<'a>(index: &Index, pools: &'a [PoolSettings], name: &[u8]) -> &'a [Member]
    requires { place_of index.now ≡ pool_place pools.now }
    ensures { result.now ≡ members_at pools.now name.now }
{
    members_by(pools, index.find(name))
}

// Of so many seconds.
fn milliseconds(seconds: u32) -> u64
    ensures { result ≡ seconds * 1000 }
{
    u64::from(seconds) * 1000
}

fn new_member(at: usize, monitor: &Monitor, member: Member) -> ProbedMember
    ensures { result ≡ new_member at monitor.now member }
{
    ProbedMember {
        monitor: at,
        member: member.addr,
        interval: milliseconds(monitor.interval),
        timeout: milliseconds(monitor.timeout),
        sent: None,
        good: 0,
        up: true,
        probe: None,
    }
}

fn push_members(
    all: &mut Vec<ProbedMember>,
    at: usize,
    monitor: &Monitor,
    members: &[Member],
) -> M<()>
    ensures { OnOk result (all.new.items
        ≡ all.old.items ++ map (new_member at monitor.now) members.now) }
{
    for member in members {
        all.push(new_member(at, monitor, *member))?;
    }
    Ok(())
}

/// The members that monitors probe, in the order of the monitors and of the members of each.
pub(crate) fn members_of(
    alloc: Global,
    pools: &[PoolSettings],
    monitors: &[Monitor],
) -> M<Vec<ProbedMember>>
    ensures { IfOk result (λ all. all.items ≡ members_from pools.now 0 monitors.now) }
{
    let index = pool_places(alloc, pools)?;
    let mut all = Vec::new(alloc);
    for (at, monitor) in monitors.iter().enumerate() {
        push_members(
            &mut all,
            at,
            monitor,
            members_at(&index, pools, monitor.pool.as_bytes()),
        )?;
    }
    Ok(all)
}
