// What a Run comes to.

ghost use Rattle.std.specs.Prelude.{◌≡◌};
ghost use Rattle.conn.specs.RunsItems.{ends};

use px_bytes::Texts;

/// What a Run of a connection comes to.
#[derive(Drop)]
pub enum ConnTurn {
    /// There is more to do.
    More,
    /// It waits for the reply to this shared call.
    Asks(Texts),
    /// It can't go on now.
    NotYet,
    /// It is over, and its last notes were given.
    Over,
}

impl ConnTurn {
    /// Whether its last notes were given.
    pub fn is_over(&self) -> bool
        ensures { result ≡ ends self.now }
    {
        match self {
            ConnTurn::Over => true,
            _ => false,
        }
    }
}

/// What one action comes to.
#[derive(Drop)]
pub(crate) enum Act {
    /// It went on.
    Goes,
    /// A body made this shared call.
    Asks(Texts),
    /// It can't go on now.
    Rests,
}
