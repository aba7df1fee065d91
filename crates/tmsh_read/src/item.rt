// Items, with their keywords and their keys in the table.

ghost use Rattle.std.specs.Prelude.{◌≡◌};
ghost use Rattle.tmsh_read.specs.Items.{block_of, group_item, item_of, key_of, limits_item};
ghost use Rattle.tmsh_read.specs.Items.{member_item, pool_item, row_item, server_item, shape_of};

use crate::next::Next;
use crate::section::Block;
use crate::shape::Shape;

/// An item that has a keyword.
#[derive(Clone, Copy)]
pub(crate) enum Item {
    Budget,
    Connections,
    Idle,
    TableRows,
    Listen,
    Http,
    PoolName,
    Persist,
    PersistTimeout,
    RuleNames,
    Method,
    MinActive,
    Members,
    Kind,
    Rows,
    Ratio,
    Priority,
    Data,
}

fn limits_item(word: &[u8]) -> Option<Item>
    ensures { result ≡ limits_item word.now }
{
    if word == b"budget".as_slice() {
        Some(Item::Budget)
    } else if word == b"connections".as_slice() {
        Some(Item::Connections)
    } else if word == b"idle".as_slice() {
        Some(Item::Idle)
    } else if word == b"rows".as_slice() {
        Some(Item::TableRows)
    } else {
        None
    }
}

fn server_item(word: &[u8]) -> Option<Item>
    ensures { result ≡ server_item word.now }
{
    if word == b"destination".as_slice() {
        Some(Item::Listen)
    } else if word == b"profiles".as_slice() {
        Some(Item::Http)
    } else if word == b"pool".as_slice() {
        Some(Item::PoolName)
    } else if word == b"persist".as_slice() {
        Some(Item::Persist)
    } else if word == b"persist-timeout".as_slice() {
        Some(Item::PersistTimeout)
    } else if word == b"rules".as_slice() {
        Some(Item::RuleNames)
    } else {
        None
    }
}

fn pool_item(word: &[u8]) -> Option<Item>
    ensures { result ≡ pool_item word.now }
{
    if word == b"load-balancing-mode".as_slice() {
        Some(Item::Method)
    } else if word == b"min-active-members".as_slice() {
        Some(Item::MinActive)
    } else if word == b"members".as_slice() {
        Some(Item::Members)
    } else {
        None
    }
}

fn group_item(word: &[u8]) -> Option<Item>
    ensures { result ≡ group_item word.now }
{
    if word == b"type".as_slice() {
        Some(Item::Kind)
    } else if word == b"records".as_slice() {
        Some(Item::Rows)
    } else {
        None
    }
}

fn member_item(word: &[u8]) -> Option<Item>
    ensures { result ≡ member_item word.now }
{
    if word == b"ratio".as_slice() {
        Some(Item::Ratio)
    } else if word == b"priority-group".as_slice() {
        Some(Item::Priority)
    } else {
        None
    }
}

fn row_item(word: &[u8]) -> Option<Item>
    ensures { result ≡ row_item word.now }
{
    if word == b"data".as_slice() {
        Some(Item::Data)
    } else {
        None
    }
}

/// The item of this keyword.
pub(crate) fn item_of(block: Block, word: &[u8]) -> Option<Item>
    ensures { result ≡ item_of block word.now }
{
    match block {
        Block::Limits => limits_item(word),
        Block::Server => server_item(word),
        Block::Pool => pool_item(word),
        Block::Group => group_item(word),
        Block::Member => member_item(word),
        Block::Row => row_item(word),
    }
}

impl Item {
    /// The items among which it stands.
    pub fn block(self) -> Block
        ensures { result ≡ block_of self }
    {
        match self {
            Item::Budget | Item::Connections | Item::Idle | Item::TableRows => Block::Limits,
            Item::Method | Item::MinActive | Item::Members => Block::Pool,
            Item::Kind | Item::Rows => Block::Group,
            Item::Ratio | Item::Priority => Block::Member,
            Item::Data => Block::Row,
            _ => Block::Server,
        }
    }

    /// Its key in the table.
    pub fn key(self) -> &'static str
        ensures { result.now ≡ key_of self }
    {
        match self {
            Item::Budget => "budget",
            Item::Connections => "connections",
            Item::Idle => "idle",
            Item::TableRows | Item::Rows => "rows",
            Item::Listen => "listen",
            Item::Http => "http",
            Item::PoolName => "pool",
            Item::Persist => "persist",
            Item::PersistTimeout => "persist_timeout",
            Item::RuleNames => "rules",
            Item::Method => "method",
            Item::MinActive => "min_active",
            Item::Members => "members",
            Item::Kind => "type",
            Item::Ratio => "ratio",
            Item::Priority => "priority",
            Item::Data => "data",
        }
    }

    /// What stands behind its keyword.
    pub fn shape(self) -> Shape
        ensures { result ≡ shape_of self }
    {
        match self {
            Item::Listen | Item::PoolName | Item::Persist | Item::Kind | Item::Data => Shape::Word,
            Item::Method => Shape::Method,
            Item::Http => Shape::Opens(Next::Http),
            Item::RuleNames => Shape::Opens(Next::Names),
            Item::Members => Shape::Opens(Next::Members),
            Item::Rows => Shape::Opens(Next::Rows),
            _ => Shape::Number,
        }
    }
}
