// The keys of each table.

ghost use Rattle.std.specs.Prelude.{◌≡◌};
ghost use Rattle.pool_monitor.specs.Keys.{key_view, recv_key, send_key};

use crate::key::{Key, Kind};

pub(crate) const VERSION: Key = Key {
    name: "version",
    required: true,
    kind: Kind::Whole {
        low: 1,
        high: 1,
        usual: 1,
    },
};

/// Each of its tables names another pool, so there is no greatest length.
pub(crate) const MONITORS: Key = Key {
    name: "monitor",
    required: false,
    kind: Kind::Array,
};

/// The pool that is probed.
pub(crate) const POOL: Key = Key {
    name: "pool",
    required: true,
    kind: Kind::Text {
        least: 0,
        most: usize::MAX,
    },
};

/// By what it is probed.
pub(crate) const KIND: Key = Key {
    name: "kind",
    required: true,
    kind: Kind::Probing,
};

/// Seconds.
pub(crate) const INTERVAL: Key = Key {
    name: "interval",
    required: false,
    kind: Kind::Whole {
        low: 1,
        high: 3600,
        usual: 5,
    },
};

/// Seconds.
pub(crate) const TIMEOUT: Key = Key {
    name: "timeout",
    required: false,
    kind: Kind::Whole {
        low: 1,
        high: 86_400,
        usual: 16,
    },
};

pub(crate) const TOP_NAMES: [&str; 2] = ["version", "monitor"];

pub(crate) const ITEM_NAMES: [&str; 6] = ["pool", "kind", "interval", "timeout", "send", "recv"];

/// What is sent.
pub(crate) fn send_key(required: bool) -> Key
    ensures { key_view result ≡ send_key required }
{
    Key {
        name: "send",
        required,
        kind: Kind::Text {
            least: 1,
            most: 4096,
        },
    }
}

/// What is waited for.
pub(crate) fn recv_key(required: bool) -> Key
    ensures { key_view result ≡ recv_key required }
{
    Key {
        name: "recv",
        required,
        kind: Kind::Text {
            least: 1,
            most: 1024,
        },
    }
}
