// Tokens.

use crate::word::Word;

/// A token.
#[derive(Drop)]
pub(crate) enum Token {
    Open,
    Close,
    /// Bytes other than white space, braces and quotes.
    Run(Word),
    Quoted(Word),
    /// The text of a rule, which stands between braces.
    Braced(Word),
    /// The text's end.
    End,
    /// Bytes that are no token.
    Broken,
}

/// A token, and where it stands.
#[derive(Drop)]
pub(crate) struct Found {
    pub token: Token,
    /// The bytes before it.
    pub start: usize,
    /// The bytes up to its end.
    pub end: usize,
}
