// What a document without faults configures.

ghost use Rattle.std.specs.Prelude.{◌≡◌, IfOk};
ghost use Rattle.toml.specs.View.{table_view};
ghost use Rattle.config.specs.Documents.{items_at};
ghost use Rattle.config.specs.Keys as key;
ghost use Rattle.config.specs.Settings.{each, group_item, pool_item, server_item, settings_of};

use crate::config::{GroupSettings, PoolSettings, Settings, VirtualSettings};
use crate::group_table::groups_of;
use crate::keys::{BUDGET, CONNECTIONS, GROUP, IDLE, POOL, TABLE_ROWS, VIRTUAL};
use crate::pool_table::pools_of;
use crate::read::whole_at;
use crate::server_table::servers_of;
use crate::table::array_at;
use px_bytes::{M, Seq};
use std::alloc::Global;
use toml::Table;

fn servers_at(alloc: Global, top: &Table) -> M<Seq<VirtualSettings>>
    ensures { IfOk result (λ xs.
        xs ≡ each server_item (items_at key.servers (table_view top.now))) }
{
    match array_at(top, VIRTUAL.name) {
        Some(values) => servers_of(alloc, values),
        None => Ok(Seq::new(alloc)),
    }
}

fn pools_at(alloc: Global, top: &Table) -> M<Seq<PoolSettings>>
    ensures { IfOk result (λ xs. xs ≡ each pool_item (items_at key.pools (table_view top.now))) }
{
    match array_at(top, POOL.name) {
        Some(values) => pools_of(alloc, values),
        None => Ok(Seq::new(alloc)),
    }
}

fn groups_at(alloc: Global, top: &Table) -> M<Seq<GroupSettings>>
    ensures { IfOk result (λ xs. xs ≡ each group_item (items_at key.groups (table_view top.now))) }
{
    match array_at(top, GROUP.name) {
        Some(values) => groups_of(alloc, values),
        None => Ok(Seq::new(alloc)),
    }
}

/// What a document without faults configures, but for its rules.
pub(crate) fn settings_of(alloc: Global, top: &Table) -> M<Settings>
    ensures { IfOk result (λ settings. settings ≡ settings_of (table_view top.now)) }
{
    Ok(Settings {
        budget: whole_at(&BUDGET, top),
        connections: whole_at(&CONNECTIONS, top),
        idle: whole_at(&IDLE, top),
        rows: whole_at(&TABLE_ROWS, top),
        virtuals: servers_at(alloc, top)?,
        pools: pools_at(alloc, top)?,
        groups: groups_at(alloc, top)?,
    })
}
