// Stanzas, and what stands between their braces.

ghost use Rattle.std.specs.Prelude.{◌≡◌};
ghost use Rattle.tmsh_read.specs.Stanzas.{after_name};

use crate::next::Next;

/// What a stanza that has a name is.
#[derive(Clone, Copy)]
pub(crate) enum Section {
    Server,
    Pool,
    Rule,
    Group,
}

/// Items between braces: those of a stanza, of a pool's member or of a group's row.
#[derive(Clone, Copy)]
pub(crate) enum Block {
    Limits,
    Server,
    Pool,
    Group,
    Member,
    Row,
}

impl Section {
    /// What stands behind the name.
    pub fn after_name(self) -> Next
        ensures { result ≡ after_name self }
    {
        match self {
            Section::Server => Next::Opens(Block::Server),
            Section::Pool => Next::Opens(Block::Pool),
            Section::Rule => Next::Text,
            Section::Group => Next::Opens(Block::Group),
        }
    }
}
