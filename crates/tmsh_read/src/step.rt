// What a token adds to what was read.

ghost use Rattle.std.specs.Prelude.{◌≡◌, IfOk};
ghost use Rattle.tmsh_read.specs.Grammar.{came, http_end_step, item_step, keyword_step, members_step};
ghost use Rattle.tmsh_read.specs.Grammar.{name_step, names_step, plain_step, rows_step, stanza_step};
ghost use Rattle.tmsh_read.specs.Grammar.{stanza_word, step, text_step, word_of};
ghost use Rattle.tmsh_read.specs.Items.{item_of};
ghost use Rattle.tmsh_read.specs.Sketch.{sketch};
ghost use Rattle.tmsh_read.specs.Stanzas.{next_after};

use crate::draft::Draft;
use crate::item::{Item, item_of};
use crate::next::Next;
use crate::section::{Block, Section};
use crate::tables::{add, put};
use crate::token::Token;
use crate::values::word_of;
use px_bytes::M;
use toml::Value;

impl Draft {
    fn on_stanza_word(&mut self, word: &[u8]) -> bool
        ensures { came result (sketch self.new) ≡ stanza_word (sketch self.old) word.now }
    {
        if word == b"ltm".as_slice() {
            self.next = Next::Section;
            return true;
        }
        if word == b"sys".as_slice() && !self.limited {
            self.limited = true;
            self.next = Next::Limits;
            return true;
        }
        false
    }

    fn on_stanza(&mut self, token: Token) -> bool
        ensures { came result (sketch self.new) ≡ stanza_step (sketch self.old) token }
    {
        match token {
            Token::Run(word) => self.on_stanza_word(word.as_bytes()),
            _ => false,
        }
    }

    fn on_name(&mut self, section: Section, token: Token) -> M<bool>
        ensures { IfOk result (λ went. came went (sketch self.new)
            ≡ name_step (sketch self.old) section (word_of token)) }
    {
        match word_of(token) {
            Some(name) => {
                self.begin(section, name)?;
                Ok(true)
            }
            None => Ok(false),
        }
    }

    fn on_keyword(&mut self, block: Block, word: &[u8]) -> bool
        ensures { came result (sketch self.new) ≡ keyword_step (sketch self.old)
            (item_of block word.now) }
    {
        match item_of(block, word) {
            Some(item) if !self.has(item) => {
                self.next = Next::Value(item);
                true
            }
            _ => false,
        }
    }

    fn on_item(&mut self, block: Block, token: Token) -> M<bool>
        ensures { IfOk result (λ went. came went (sketch self.new)
            ≡ item_step (sketch self.old) block token) }
    {
        match token {
            Token::Run(word) => Ok(self.on_keyword(block, word.as_bytes())),
            Token::Close if self.is_whole(block) => {
                self.close(block)?;
                Ok(true)
            }
            _ => Ok(false),
        }
    }

    fn on_http_end(&mut self, token: Token) -> M<bool>
        ensures { IfOk result (λ went. came went (sketch self.new)
            ≡ http_end_step (sketch self.old) token) }
    {
        match token {
            Token::Close => {
                self.store(Item::Http, Value::Boolean(true))?;
                Ok(true)
            }
            _ => Ok(false),
        }
    }

    // Another name of a rule, or the end of the names.
    fn on_names(&mut self, token: Token) -> M<bool>
        ensures { IfOk result (λ went. came went (sketch self.new)
            ≡ names_step (sketch self.old) token) }
    {
        match token {
            Token::Close => self.store_entries(Item::RuleNames)?,
            Token::Run(word) | Token::Quoted(word) => add(&mut self.entries, word.into_value())?,
            _ => return Ok(false),
        }
        Ok(true)
    }

    // Another member, or the end of the members.
    fn on_members(&mut self, token: Token) -> M<bool>
        ensures { IfOk result (λ went. came went (sketch self.new)
            ≡ members_step (sketch self.old) token) }
    {
        match token {
            Token::Close => self.store_entries(Item::Members)?,
            Token::Run(word) | Token::Quoted(word) => {
                put(self.alloc, &mut self.member, "addr", word.into_value())?;
                self.next = Next::Opens(Block::Member);
            }
            _ => return Ok(false),
        }
        Ok(true)
    }

    // Another row, or the end of the rows.
    fn on_rows(&mut self, token: Token) -> M<bool>
        ensures { IfOk result (λ went. came went (sketch self.new)
            ≡ rows_step (sketch self.old) token) }
    {
        match token {
            Token::Close => self.store_entries(Item::Rows)?,
            Token::Run(word) | Token::Quoted(word) => {
                add(&mut self.row, word.into_value())?;
                self.next = Next::Opens(Block::Row);
            }
            _ => return Ok(false),
        }
        Ok(true)
    }

    fn on_text(&mut self, token: Token) -> M<bool>
        ensures { IfOk result (λ went. came went (sketch self.new)
            ≡ text_step (sketch self.old) token) }
    {
        match token {
            Token::Braced(text) => {
                self.close_rule(text)?;
                Ok(true)
            }
            _ => Ok(false),
        }
    }

    fn on_plain(&mut self, next: Next, token: Token) -> bool
        ensures { came result (sketch self.new) ≡ plain_step (sketch self.old) (next_after next token) }
    {
        match next.after(&token) {
            Some(next) => {
                self.next = next;
                true
            }
            None => false,
        }
    }

    /// Goes on by a token: whether it may stand here.
    pub fn step(&mut self, token: Token) -> M<bool>
        ensures { IfOk result (λ went. came went (sketch self.new) ≡ step (sketch self.old) token) }
    {
        match self.next {
            Next::Stanza => Ok(self.on_stanza(token)),
            Next::Name(section) => self.on_name(section, token),
            Next::Items(block) => self.on_item(block, token),
            Next::Value(item) => self.on_value(item, token),
            Next::HttpEnd => self.on_http_end(token),
            Next::Names => self.on_names(token),
            Next::Members => self.on_members(token),
            Next::Rows => self.on_rows(token),
            Next::Text => self.on_text(token),
            next => Ok(self.on_plain(next, token)),
        }
    }
}
