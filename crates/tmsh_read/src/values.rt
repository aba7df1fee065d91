// What stands behind the keyword of an item.

ghost use Rattle.std.specs.Prelude.{◌≡◌, IfOk};
ghost use Rattle.tmsh_read.specs.Grammar.{came, method_step, number_step, opens_step, value_step};
ghost use Rattle.tmsh_read.specs.Grammar.{word_of, word_step};
ghost use Rattle.tmsh_read.specs.Sketch.{sketch};

use crate::draft::Draft;
use crate::item::Item;
use crate::next::Next;
use crate::shape::{Shape, method, number};
use crate::token::Token;
use crate::word::Word;
use px_bytes::M;
use toml::Value;

/// The text of a run or of a quoted token.
pub(crate) fn word_of(token: Token) -> Option<Word>
    ensures { result ≡ word_of token }
{
    match token {
        Token::Run(word) => Some(word),
        Token::Quoted(word) => Some(word),
        _ => None,
    }
}

impl Draft {
    fn on_number(&mut self, item: Item, word: &[u8]) -> M<bool>
        ensures { IfOk result (λ went. came went (sketch self.new)
            ≡ number_step (sketch self.old) item word.now) }
    {
        match number(word) {
            Some(number) => {
                self.store(item, Value::Integer(number as i64))?;
                Ok(true)
            }
            None => Ok(false),
        }
    }

    fn on_method(&mut self, item: Item, word: &[u8]) -> M<bool>
        ensures { IfOk result (λ went. came went (sketch self.new)
            ≡ method_step (sketch self.old) item word.now) }
    {
        match method(word) {
            Some(method) => {
                let value = Value::string(self.alloc, method)?;
                self.store(item, value)?;
                Ok(true)
            }
            None => Ok(false),
        }
    }

    fn on_word(&mut self, item: Item, token: Token) -> M<bool>
        ensures { IfOk result (λ went. came went (sketch self.new)
            ≡ word_step (sketch self.old) item (word_of token)) }
    {
        match word_of(token) {
            Some(word) => {
                self.store(item, word.into_value())?;
                Ok(true)
            }
            None => Ok(false),
        }
    }

    fn on_open(&mut self, next: Next, token: Token) -> bool
        ensures { came result (sketch self.new) ≡ opens_step (sketch self.old) next token }
    {
        match token {
            Token::Open => {
                self.next = next;
                true
            }
            _ => false,
        }
    }

    /// What stands behind a keyword.
    pub fn on_value(&mut self, item: Item, token: Token) -> M<bool>
        ensures { IfOk result (λ went. came went (sketch self.new)
            ≡ value_step (sketch self.old) item token) }
    {
        match (item.shape(), token) {
            (Shape::Opens(next), token) => Ok(self.on_open(next, token)),
            (Shape::Word, token) => self.on_word(item, token),
            (Shape::Number, Token::Run(word)) => self.on_number(item, word.as_bytes()),
            (Shape::Method, Token::Run(word)) => self.on_method(item, word.as_bytes()),
            _ => Ok(false),
        }
    }
}
