// How far an expression has been looked at.

/// How far an expression has been looked at, and how many parentheses and question marks are open
/// there.
#[derive(Clone, Copy, PartialEq, Eq)]
pub struct Opened {
    pub at: usize,
    pub count: usize,
}

/// What stands around the parts of an operand: whether quotes, and how many openers; and how far the
/// expression has been looked at behind them.
#[derive(Clone, Copy, PartialEq, Eq)]
pub struct Enclosure {
    pub quoted: bool,
    pub openers: usize,
    pub behind: Opened,
}
