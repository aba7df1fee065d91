// One word of `test` after another.

ghost use Rattle.std.specs.Prelude.{◌≡◌, IfOk};
ghost use Rattle.test_words.specs.Words.{Reads, any_word, awaited_by, cuts_word, file_word, is_name};
ghost use Rattle.test_words.specs.Words.{no_words, only_word, orders_word, read_word, schedule_word};
ghost use Rattle.test_words.specs.Words.{shape_by};

use crate::words::{ReportForm, TestWords};
use px_bytes::{M, Text, Texts};
use std::alloc::Global;

/// What the next word must be.
#[derive(Clone, Copy, PartialEq, Eq)]
pub enum Awaited {
    /// A file or an option.
    Any,
    /// `all`, behind `--cuts`.
    Cuts,
    /// `all`, behind `--orders`.
    Orders,
    /// The name of a test.
    Only,
    /// The file of a schedule.
    Schedule,
}

/// What the words so far say.
#[derive(Drop)]
pub struct WordsRead {
    pub awaited: Awaited,
    pub said: TestWords,
}

// Neither empty nor an option.
fn is_name(word: &[u8]) -> bool
    ensures { result ≡ is_name word.now }
{
    match word {
        [] => false,
        [first, ..] => *first != b'-',
    }
}

impl WordsRead {
    /// Nothing was said yet.
    pub(crate) fn new(alloc: Global) -> WordsRead
        ensures { result ≡ no_words }
    {
        WordsRead {
            awaited: Awaited::Any,
            said: TestWords {
                files: Texts::new(alloc),
                cuts: false,
                orders: false,
                only: None,
                shape: None,
                schedule: None,
            },
        }
    }

    fn cuts(&mut self, word: &[u8]) -> bool
        ensures { Reads result self.new (cuts_word self.old word.now) }
    {
        if word != b"all".as_slice() {
            return false;
        }
        self.awaited = Awaited::Any;
        self.said.cuts = true;
        true
    }

    fn orders(&mut self, word: &[u8]) -> bool
        ensures { Reads result self.new (orders_word self.old word.now) }
    {
        if word != b"all".as_slice() {
            return false;
        }
        self.awaited = Awaited::Any;
        self.said.orders = true;
        true
    }

    fn only(&mut self, alloc: Global, word: &[u8]) -> M<bool>
        ensures { IfOk result (λ read. Reads read self.new (only_word self.old word.now)) }
    {
        self.said.only = Some(Text::new(alloc, word)?);
        self.awaited = Awaited::Any;
        Ok(true)
    }

    fn schedule(&mut self, alloc: Global, word: &[u8]) -> M<bool>
        ensures { IfOk result (λ read. Reads read self.new (schedule_word self.old word.now)) }
    {
        if !is_name(word) {
            return Ok(false);
        }
        self.said.schedule = Some(Text::new(alloc, word)?);
        self.awaited = Awaited::Any;
        Ok(true)
    }

    fn file(&mut self, alloc: Global, word: &[u8]) -> M<bool>
        ensures { IfOk result (λ read. Reads read self.new (file_word self.old word.now)) }
    {
        if !is_name(word) {
            return Ok(false);
        }
        self.said.files.push(Text::new(alloc, word)?)?;
        Ok(true)
    }

    // What the word behind an option must be.
    fn awaited_by(&self, word: &[u8]) -> Option<Awaited>
        ensures { result ≡ awaited_by self.now.said word.now }
    {
        if word == b"--cuts".as_slice() && !self.said.cuts {
            return Some(Awaited::Cuts);
        }
        if word == b"--orders".as_slice() && !self.said.orders {
            return Some(Awaited::Orders);
        }
        if word == b"--only".as_slice() && self.said.only.is_none() {
            return Some(Awaited::Only);
        }
        if word == b"--schedule".as_slice() && self.said.schedule.is_none() {
            return Some(Awaited::Schedule);
        }
        None
    }

    // The form of a report that an option asks for.
    fn shape_by(&self, word: &[u8]) -> Option<ReportForm>
        ensures { result ≡ shape_by self.now.said word.now }
    {
        if self.said.shape.is_some() {
            return None;
        }
        if word == b"--tap".as_slice() {
            return Some(ReportForm::Tap);
        }
        if word == b"--junit".as_slice() {
            return Some(ReportForm::Junit);
        }
        None
    }

    // An option, or a file.
    fn any(&mut self, alloc: Global, word: &[u8]) -> M<bool>
        ensures { IfOk result (λ read. Reads read self.new (any_word self.old word.now)) }
    {
        if let Some(awaited) = self.awaited_by(word) {
            self.awaited = awaited;
            return Ok(true);
        }
        if let Some(shape) = self.shape_by(word) {
            self.said.shape = Some(shape);
            return Ok(true);
        }
        self.file(alloc, word)
    }

    /// Reads a word more. Says whether it could stand there.
    pub(crate) fn word(&mut self, alloc: Global, word: &[u8]) -> M<bool>
        ensures { IfOk result (λ read. Reads read self.new (read_word self.old word.now)) }
    {
        match self.awaited {
            Awaited::Any => self.any(alloc, word),
            Awaited::Cuts => Ok(self.cuts(word)),
            Awaited::Orders => Ok(self.orders(word)),
            Awaited::Only => self.only(alloc, word),
            Awaited::Schedule => self.schedule(alloc, word),
        }
    }
}
