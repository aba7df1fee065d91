// Configurations.

use data_groups::{GroupKind, GroupRows};
use pools::{Members, Method};
use px_bytes::{Addr, Seq, Text, Texts};
use run_config::Persist;

/// A virtual server.
#[derive(Drop)]
pub struct VirtualSettings {
    pub name: Text,
    pub listen: Addr,
    pub http: bool,
    /// The name of its default pool.
    pub pool: Option<Text>,
    pub persist: Persist,
    /// In seconds.
    pub persist_timeout: u32,
    /// The names of its rules.
    pub rules: Texts,
}

/// A pool.
#[derive(Drop)]
pub struct PoolSettings {
    pub name: Text,
    pub method: Method,
    pub members: Members,
    /// How many members that are up are wanted before a group of a lower priority serves.
    pub min_active: u32,
}

/// A data group.
#[derive(Drop)]
pub struct GroupSettings {
    pub name: Text,
    pub kind: GroupKind,
    pub rows: GroupRows,
}

/// What a document says, but for its rules, in the order of the document.
#[derive(Drop)]
pub struct Settings {
    /// Units that each body may spend.
    pub budget: u32,
    /// Connections that may be live at once.
    pub connections: u32,
    /// Seconds without bytes after which a connection is cut.
    pub idle: u32,
    /// Rows of the session table that may be live at once.
    pub rows: u32,
    pub virtuals: Seq<VirtualSettings>,
    pub pools: Seq<PoolSettings>,
    pub groups: Seq<GroupSettings>,
}
