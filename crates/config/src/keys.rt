// The keys of each table.

ghost use Rattle.std.specs.Prelude.{◌≡◌, map};
ghost use Rattle.config.specs.Keys.{key_view, member_keys, min_active, top_keys};

use crate::key::{Form, Key, Kind};
use crate::version::Version;

const MOST_ITEMS: usize = 65_536;

const MOST_MEMBERS: usize = 1000;

pub(crate) const VERSION: Key = Key {
    name: "version",
    required: true,
    kind: Kind::Whole {
        low: 1,
        high: 2,
        usual: 1,
    },
};

pub(crate) const BUDGET: Key = Key {
    name: "budget",
    required: false,
    kind: Kind::Whole {
        low: 1,
        high: 1_000_000,
        usual: 100_000,
    },
};

pub(crate) const CONNECTIONS_ONE: Key = Key {
    name: "connections",
    required: false,
    kind: Kind::Whole {
        low: 1,
        high: 4096,
        usual: 512,
    },
};

pub(crate) const CONNECTIONS: Key = Key {
    name: "connections",
    required: false,
    kind: Kind::Whole {
        low: 1,
        high: 8192,
        usual: 512,
    },
};

/// Rows of the session table that may be live at once.
pub(crate) const TABLE_ROWS: Key = Key {
    name: "rows",
    required: false,
    kind: Kind::Whole {
        low: 1,
        high: 131_072,
        usual: 65_536,
    },
};

pub(crate) const IDLE: Key = Key {
    name: "idle",
    required: false,
    kind: Kind::Whole {
        low: 1,
        high: 86_400,
        usual: 300,
    },
};

pub(crate) const VIRTUAL: Key = Key {
    name: "virtual",
    required: false,
    kind: Kind::Array { most: MOST_ITEMS },
};

pub(crate) const POOL: Key = Key {
    name: "pool",
    required: false,
    kind: Kind::Array { most: MOST_ITEMS },
};

pub(crate) const RULE: Key = Key {
    name: "rule",
    required: false,
    kind: Kind::Array { most: MOST_ITEMS },
};

pub(crate) const GROUP: Key = Key {
    name: "group",
    required: false,
    kind: Kind::Array { most: MOST_ITEMS },
};

/// The name of a virtual server, a pool, a rule or a group.
pub(crate) const NAME: Key = Key {
    name: "name",
    required: true,
    kind: Kind::Text(Form::Name),
};

pub(crate) const LISTEN: Key = Key {
    name: "listen",
    required: true,
    kind: Kind::Text(Form::Address),
};

pub(crate) const HTTP: Key = Key {
    name: "http",
    required: false,
    kind: Kind::Truth,
};

/// The pool of a virtual server.
pub(crate) const POOL_NAME: Key = Key {
    name: "pool",
    required: false,
    kind: Kind::Text(Form::Any),
};

pub(crate) const PERSIST: Key = Key {
    name: "persist",
    required: false,
    kind: Kind::OneOf(&["none", "source_addr", "cookie"]),
};

pub(crate) const PERSIST_TIMEOUT: Key = Key {
    name: "persist_timeout",
    required: false,
    kind: Kind::Whole {
        low: 1,
        high: 86_400,
        usual: 180,
    },
};

/// A rule stands there once at most, so there is no greatest length.
pub(crate) const RULES: Key = Key {
    name: "rules",
    required: false,
    kind: Kind::Array { most: usize::MAX },
};

pub(crate) const METHOD: Key = Key {
    name: "method",
    required: false,
    kind: Kind::OneOf(&["round_robin", "ratio"]),
};

pub(crate) const MEMBERS: Key = Key {
    name: "members",
    required: false,
    kind: Kind::Array { most: MOST_MEMBERS },
};

pub(crate) const ADDR: Key = Key {
    name: "addr",
    required: true,
    kind: Kind::Text(Form::Address),
};

pub(crate) const RATIO: Key = Key {
    name: "ratio",
    required: false,
    kind: Kind::Whole {
        low: 1,
        high: 100,
        usual: 1,
    },
};

pub(crate) const PRIORITY: Key = Key {
    name: "priority",
    required: false,
    kind: Kind::Whole {
        low: 0,
        high: 100,
        usual: 0,
    },
};

pub(crate) const TEXT: Key = Key {
    name: "text",
    required: false,
    kind: Kind::Text(Form::Any),
};

pub(crate) const FILE: Key = Key {
    name: "file",
    required: false,
    kind: Kind::Text(Form::Any),
};

pub(crate) const TYPE: Key = Key {
    name: "type",
    required: true,
    kind: Kind::OneOf(&["string", "ip", "integer"]),
};

pub(crate) const ROWS: Key = Key {
    name: "rows",
    required: false,
    kind: Kind::Array { most: MOST_ITEMS },
};

static TOP_ONE: [Key; 8] = [
    VERSION,
    BUDGET,
    CONNECTIONS_ONE,
    IDLE,
    VIRTUAL,
    POOL,
    RULE,
    GROUP,
];

static TOP_TWO: [Key; 9] = [
    VERSION,
    BUDGET,
    CONNECTIONS,
    IDLE,
    TABLE_ROWS,
    VIRTUAL,
    POOL,
    RULE,
    GROUP,
];

/// The keys of a document.
pub(crate) fn top_keys(version: Version) -> &'static [Key]
    ensures { map key_view result.now ≡ top_keys version }
{
    match version {
        Version::One => &TOP_ONE,
        Version::Two => &TOP_TWO,
    }
}

pub(crate) const VIRTUAL_FRONT: [Key; 5] = [NAME, LISTEN, HTTP, POOL_NAME, PERSIST];

pub(crate) const VIRTUAL_BACK: [Key; 2] = [PERSIST_TIMEOUT, RULES];

pub(crate) const VIRTUAL_KEYS: [Key; 7] = [
    NAME,
    LISTEN,
    HTTP,
    POOL_NAME,
    PERSIST,
    PERSIST_TIMEOUT,
    RULES,
];

/// How many members that are up are wanted before a group of a lower priority serves.
pub(crate) fn min_active(most: u32) -> Key
    ensures { key_view result ≡ min_active most }
{
    Key {
        name: "min_active",
        required: false,
        kind: Kind::Whole {
            low: 0,
            high: most,
            usual: 0,
        },
    }
}

static MEMBER_ONE: [Key; 2] = [ADDR, RATIO];

static MEMBER_TWO: [Key; 3] = [ADDR, RATIO, PRIORITY];

/// The keys of a member of a pool.
pub(crate) fn member_keys(version: Version) -> &'static [Key]
    ensures { map key_view result.now ≡ member_keys version }
{
    match version {
        Version::One => &MEMBER_ONE,
        Version::Two => &MEMBER_TWO,
    }
}

pub(crate) const RULE_KEYS: [Key; 3] = [NAME, TEXT, FILE];

pub(crate) const GROUP_KEYS: [Key; 3] = [NAME, TYPE, ROWS];
