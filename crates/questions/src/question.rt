// A question: its words, read one by one, and its answer so far.

ghost use Rattle.std.specs.Prelude.{◌≤◌};

use hex::FromHexError;
use px_bytes::{Addr, M, Memory, Pairs, Text, Texts, read_addr, read_decimal};
use std::alloc::Global;
use std::io::{self, ErrorKind, Write};

/// A question and its answer so far. A word that lacks or can't be read makes it one that asks nothing
/// known, and stands for zero or for no bytes; so does memory that was refused, which is told at the end.
#[derive(Drop)]
pub struct Question<'a> {
    pub alloc: Global,
    words: &'a [&'a str],
    at: usize,
    known: bool,
    refused: bool,
    answer: Text,
}

impl<'a> Question<'a> {
    pub fn new(alloc: Global, words: &'a [&'a str]) -> Question<'a> {
        Question {
            alloc,
            words,
            at: 0,
            known: true,
            refused: false,
            answer: Text::empty(alloc),
        }
    }

    /// The answer, which is `unknown` where the words ask nothing known, or more words stand behind.
    pub fn answer(&self) -> M<&[u8]> {
        if self.refused {
            Err(Memory)
        } else if self.known && self.at == self.words.len() {
            Ok(self.answer.as_bytes())
        } else {
            Ok(b"unknown")
        }
    }

    /// Writes the answer as a line.
    pub fn write_answer<W: Write>(&self, out: &mut W) -> io::Result<()> {
        let Ok(answer) = self.answer() else {
            return Err(io::Error::from(ErrorKind::OutOfMemory));
        };
        out.write_all(answer)?;
        out.write_all(b"\n")
    }

    /// It asks nothing known.
    pub fn unknown(&mut self) {
        self.known = false;
    }

    pub fn is_known(&self) -> bool {
        self.known
    }

    /// Memory was refused.
    pub fn refuse(&mut self) {
        self.refused = true;
    }

    /// Notes whether memory was refused.
    pub fn note(&mut self, done: M<()>) {
        if done.is_err() {
            self.refused = true;
        }
    }

    /// Puts bytes behind the answer.
    pub fn put(&mut self, bytes: &[u8]) {
        if self.answer.push(bytes).is_err() {
            self.refused = true;
        }
    }

    /// Whether anything is answered.
    pub fn is_answered(&self) -> bool {
        self.answer.len() > 0
    }

    /// How many words are left.
    pub fn left(&self) -> usize {
        self.words.len().saturating_sub(self.at)
    }

    /// Whether words are left of what is known so far.
    pub fn has_more(&self) -> bool {
        self.known && self.at < self.words.len()
    }

    /// The words that are left, which are read with it.
    pub fn rest(&mut self) -> &'a [&'a str] {
        let rest = self.words.get(self.at..).unwrap_or(&[]);
        self.at = self.words.len();
        rest
    }

    /// How many words are left before this one.
    pub fn before(&self, last: &str) -> usize {
        let mut count = 0usize;
        for word in self.words.get(self.at..).unwrap_or(&[]) {
            if *word == last {
                break;
            }
            count = count.saturating_add(1);
        }
        count
    }

    /// The next word.
    pub fn word(&mut self) -> &'a str {
        match self.words.get(self.at) {
            Some(word) => {
                self.at = self.at.saturating_add(1);
                *word
            }
            None => {
                self.known = false;
                ""
            }
        }
    }

    /// The next word, if it is this one.
    pub fn takes(&mut self, wanted: &str) -> bool {
        match self.words.get(self.at) {
            Some(word) if *word == wanted => {
                self.at = self.at.saturating_add(1);
                true
            }
            _ => false,
        }
    }

    /// A decimal number that is no larger than this.
    pub fn number(&mut self, most: u64) -> u64
        ensures { result ≤ most }
    {
        let word = self.word();
        self.decimal(word, most)
    }

    fn decimal(&mut self, digits: &str, most: u64) -> u64
        ensures { result ≤ most }
    {
        match read_decimal(digits.as_bytes(), most) {
            Some(number) => number,
            None => {
                self.known = false;
                0
            }
        }
    }

    /// An address and a port.
    pub fn address(&mut self) -> Addr {
        match read_addr(self.word().as_bytes()) {
            Some(addr) => addr,
            None => {
                self.known = false;
                Addr { ip: 0, port: 0 }
            }
        }
    }

    /// The text that a word writes: parts with `+` between, each two hexadecimal digits a byte, or one
    /// byte and behind `*` how often it stands; `-` for no bytes.
    pub fn text(&mut self) -> Text {
        let word = self.word();
        self.text_of(word)
    }

    /// The text that this word writes.
    pub fn text_of(&mut self, word: &str) -> Text {
        let mut text = Text::empty(self.alloc);
        if word != "-" {
            for part in word.split('+') {
                self.add_part(&mut text, part);
            }
        }
        text
    }

    fn add_part(&mut self, text: &mut Text, part: &str) {
        match part.split_once('*') {
            Some((digits, count)) => {
                let count = self.decimal(count, 4_000_000);
                self.add_digits(text, digits, count);
            }
            None => self.add_digits(text, part, 1),
        }
    }

    fn add_digits(&mut self, text: &mut Text, digits: &str, count: u64) {
        match hex::decode(self.alloc, digits) {
            Ok(bytes) => self.note(add_times(text, &bytes, count)),
            Err(FromHexError::OutOfMemory) => self.refused = true,
            Err(_) => self.known = false,
        }
    }

    /// The bytes of a word as they are.
    pub fn literal(&mut self, word: &str) -> Text {
        match Text::new(self.alloc, word.as_bytes()) {
            Ok(text) => text,
            Err(Memory) => {
                self.refused = true;
                Text::empty(self.alloc)
            }
        }
    }

    /// The texts that are left.
    pub fn all_texts(&mut self) -> Texts {
        self.texts(self.left())
    }

    /// So many texts.
    pub fn texts(&mut self, count: usize) -> Texts {
        let mut texts = Texts::new(self.alloc);
        for _ in 0..count {
            let text = self.text();
            self.note(texts.push(text));
        }
        texts
    }

    /// Pairs of texts, up to `/` or to the end.
    pub fn pairs(&mut self) -> Pairs {
        let mut pairs = Pairs::new(self.alloc);
        for _ in 0..self.before("/").div_ceil(2) {
            let pair = (self.text(), self.text());
            self.note(pairs.push(pair));
        }
        pairs
    }
}

/// Adds bytes so many times.
pub fn add_times(text: &mut Text, bytes: &[u8], count: u64) -> M<()> {
    for _ in 0..count {
        text.push(bytes)?;
    }
    Ok(())
}
