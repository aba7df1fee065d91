// What may stand next in a text.

ghost use Rattle.std.specs.Prelude.{◌≡◌};
ghost use Rattle.tmsh_read.specs.Stanzas.{after_open, after_word, http_word, internal_word};
ghost use Rattle.tmsh_read.specs.Stanzas.{limits_word, next_after, section_word};

use crate::item::Item;
use crate::section::{Block, Section};
use crate::token::Token;

/// What may stand next.
#[derive(Clone, Copy)]
pub(crate) enum Next {
    /// A stanza, or the text's end.
    Stanza,
    /// `limits`, behind `sys`.
    Limits,
    /// The word behind `ltm`.
    Section,
    /// `internal`, behind `data-group`.
    Internal,
    /// The name of a stanza.
    Name(Section),
    /// The brace before these items.
    Opens(Block),
    /// One of these items, or the brace that closes them.
    Items(Block),
    /// What stands behind the keyword of an item.
    Value(Item),
    /// `http` between the braces of `profiles`.
    Http,
    /// The brace behind it.
    HttpEnd,
    /// A name of a rule, or the brace behind the names.
    Names,
    /// The address of a member, or the brace behind the members.
    Members,
    /// The key of a row, or the brace behind the rows.
    Rows,
    /// The text of a rule.
    Text,
}

fn limits_word(word: &[u8]) -> Option<Next>
    ensures { result ≡ limits_word word.now }
{
    if word == b"limits".as_slice() {
        Some(Next::Opens(Block::Limits))
    } else {
        None
    }
}

fn section_word(word: &[u8]) -> Option<Next>
    ensures { result ≡ section_word word.now }
{
    if word == b"virtual".as_slice() {
        Some(Next::Name(Section::Server))
    } else if word == b"pool".as_slice() {
        Some(Next::Name(Section::Pool))
    } else if word == b"rule".as_slice() {
        Some(Next::Name(Section::Rule))
    } else if word == b"data-group".as_slice() {
        Some(Next::Internal)
    } else {
        None
    }
}

fn internal_word(word: &[u8]) -> Option<Next>
    ensures { result ≡ internal_word word.now }
{
    if word == b"internal".as_slice() {
        Some(Next::Name(Section::Group))
    } else {
        None
    }
}

fn http_word(word: &[u8]) -> Option<Next>
    ensures { result ≡ http_word word.now }
{
    if word == b"http".as_slice() {
        Some(Next::HttpEnd)
    } else {
        None
    }
}

impl Next {
    fn after_word(self, word: &[u8]) -> Option<Next>
        ensures { result ≡ after_word self word.now }
    {
        match self {
            Next::Limits => limits_word(word),
            Next::Section => section_word(word),
            Next::Internal => internal_word(word),
            Next::Http => http_word(word),
            _ => None,
        }
    }

    fn after_open(self) -> Option<Next>
        ensures { result ≡ after_open self }
    {
        match self {
            Next::Opens(block) => Some(Next::Items(block)),
            _ => None,
        }
    }

    /// What may stand next behind a token that writes nothing into the table; none where it may not
    /// stand here.
    pub fn after(self, token: &Token) -> Option<Next>
        ensures { result ≡ next_after self token.now }
    {
        match token {
            Token::Run(word) => self.after_word(word.as_bytes()),
            Token::Open => self.after_open(),
            _ => None,
        }
    }
}
