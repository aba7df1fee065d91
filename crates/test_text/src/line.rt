// The words of a command, and what each stands for.

ghost use Rattle.std.specs.Prelude.{◌≡◌, Err, IfErr, IfOk, Ok, option_map};
ghost use Rattle.test_text.specs.Deeds.{place_at};
ghost use Rattle.test_text.specs.Faults.{Gives};
ghost use Rattle.test_text.specs.Line.{address_at, address_in, bare_value, braces_at, braces_in};
ghost use Rattle.test_text.specs.Line.{client_addr, ends_at, has, is_key, is_text, key_at};
ghost use Rattle.test_text.specs.Line.{line_view};
ghost use Rattle.test_text.specs.Line.{number_at, number_in, number_of, odd_at, odd_word, place_of};
ghost use Rattle.test_text.specs.Line.{plain_text};
ghost use Rattle.test_text.specs.Line.{source_at, source_in, text_at, text_in, text_of, value_of};
ghost use Rattle.test_text.specs.Line.{word_at};
ghost use Rattle.tcl_words.specs.Tree.{and_part};
ghost use Rattle.tcl_words.specs.View.{part_view, parts_view, word_view};

use crate::fault::{Stopped, TestFault, TestFaultKind, fault_at};
use px_bytes::{Addr, Text, read_decimal};
use std::alloc::Global;
use tcl_encodings::{addr_of, read_address};
use tcl_words::{Form, Part, Span, Word};

/// The port of a client that comes from an address alone.
const CLIENT_PORT: u16 = 40_000;

/// The words of a command, and the place behind the last one.
#[derive(Clone, Copy)]
pub(crate) struct Line<'a> {
    pub words: &'a [Word],
    pub end: usize,
}

// The text of a part, if it is no more than that.
fn plain_text(part: &Part) -> Option<&Text>
    ensures { option_map (λ t. t.now) result ≡ plain_text (part_view part.now) }
{
    match part {
        Part::Plain { text, .. } => Some(text),
        _ => None,
    }
}

// The text of a part that stands alone.
fn alone<'a>(part: &'a Part, rest: &[Part]) -> Option<&'a Text>
    ensures { option_map (λ t. t.now) result
        ≡ text_in (and_part (part_view part.now) (parts_view rest.now)) }
{
    match rest {
        [] => plain_text(part),
        [_, ..] => None,
    }
}

// The text of parts that are no more than one text.
fn text_in(parts: &[Part]) -> Option<&Text>
    ensures { option_map (λ t. t.now) result ≡ text_in (parts_view parts.now) }
{
    match parts {
        [] => None,
        [part, rest @ ..] => alone(part, rest),
    }
}

// The text of a word without variable and bracket.
fn value_of(word: &Word) -> Option<&Text>
    ensures { option_map (λ t. t.now) result ≡ value_of (word_view word.now) }
{
    text_in(&word.parts)
}

/// Where a word stands.
pub(crate) fn place_of(word: &Word) -> usize
    ensures { result ≡ place_of (word_view word.now) }
{
    word.span.start
}

// Whether a word is this one of the language, which stands bare.
fn is_key(word: &Word, key: &[u8]) -> bool
    ensures { result ≡ is_text key.now (bare_value (word_view word.now)) }
{
    match (word.form, value_of(word)) {
        (Form::Bare, Some(text)) => text.as_bytes() == key,
        _ => false,
    }
}

// What is wrong with a word with which no form goes on.
fn odd_word(word: &Word) -> TestFault
    ensures { result ≡ odd_word (word_view word.now) }
{
    let kind = if value_of(word).is_some() {
        TestFaultKind::Unexpected
    } else {
        TestFaultKind::Substituted
    };
    fault_at(kind, word.span.start)
}

/// The text of a word, which it must have.
pub(crate) fn text_of(word: &Word) -> Result<&[u8], TestFault>
    ensures found { IfOk result (λ t. text_of (word_view word.now) ≡ Ok t.now) }
    ensures none { IfErr result (λ f. text_of (word_view word.now) ≡ Err f) }
{
    match value_of(word) {
        Some(text) => Ok(text.as_bytes()),
        None => Err(fault_at(TestFaultKind::Substituted, word.span.start)),
    }
}

fn address_in(word: &Word) -> Result<Addr, TestFault>
    ensures { result ≡ address_in (word_view word.now) }
{
    match addr_of(text_of(word)?) {
        Some(addr) => Ok(addr),
        None => Err(fault_at(TestFaultKind::NoAddress, word.span.start)),
    }
}

// The address of a client, which comes from a port of its own where none is said.
fn client_addr(addr: Option<Addr>, ip: Option<u32>) -> Option<Addr>
    ensures { result ≡ client_addr addr ip }
{
    match (addr, ip) {
        (Some(addr), _) => Some(addr),
        (None, Some(ip)) => Some(Addr {
            ip,
            port: CLIENT_PORT,
        }),
        (None, None) => None,
    }
}

fn source_in(word: &Word) -> Result<Addr, TestFault>
    ensures { result ≡ source_in (word_view word.now) }
{
    let text = text_of(word)?;
    match client_addr(addr_of(text), read_address(text)) {
        Some(addr) => Ok(addr),
        None => Err(fault_at(TestFaultKind::NoAddress, word.span.start)),
    }
}

fn number_of(most: u64, text: &[u8]) -> Option<u64>
    ensures { result ≡ number_of most text.now }
{
    read_decimal(text, most)
}

fn number_in(most: u64, word: &Word) -> Result<u64, TestFault>
    ensures { result ≡ number_in most (word_view word.now) }
{
    match number_of(most, text_of(word)?) {
        Some(number) => Ok(number),
        None => Err(fault_at(TestFaultKind::NoNumber, word.span.start)),
    }
}

fn braces_in(word: &Word) -> Result<Span, TestFault>
    ensures { result ≡ braces_in (word_view word.now) }
{
    match word.form {
        Form::Braced => Ok(word.inner),
        Form::Bare | Form::Quoted => Err(fault_at(TestFaultKind::NoBraces, word.span.start)),
    }
}

impl<'a> Line<'a> {
    /// The word at a place, from 0.
    pub(crate) fn word(self, at: usize) -> Result<&'a Word, TestFault>
        ensures found { IfOk result (λ w. word_at (line_view self.entry) at
            ≡ Ok (word_view w.now)) }
        ensures none { IfErr result (λ f. word_at (line_view self.entry) at ≡ Err f) }
    {
        match self.words.get(at) {
            Some(word) => Ok(word),
            None => Err(fault_at(TestFaultKind::Missing, self.end)),
        }
    }

    /// Whether the word at a place is this one of the language.
    pub(crate) fn has(self, at: usize, key: &[u8]) -> bool
        ensures { result ≡ has (line_view self.entry) at key.now }
    {
        match self.words.get(at) {
            Some(word) => is_key(word, key),
            None => false,
        }
    }

    /// What is wrong where no form goes on with the word at a place.
    pub(crate) fn odd(self, at: usize) -> TestFault
        ensures { result ≡ odd_at (line_view self.entry) at }
    {
        match self.words.get(at) {
            Some(word) => odd_word(word),
            None => fault_at(TestFaultKind::Missing, self.end),
        }
    }

    /// Tests that the word at a place is this one of the language.
    pub(crate) fn key(self, at: usize, key: &[u8]) -> Result<(), TestFault>
        ensures { result ≡ key_at (line_view self.entry) at key.now }
    {
        if self.has(at, key) {
            return Ok(());
        }
        Err(self.odd(at))
    }

    /// Tests that there are no more words than so many.
    pub(crate) fn ends(self, at: usize) -> Result<(), TestFault>
        ensures { result ≡ ends_at (line_view self.entry) at }
    {
        if self.words.len() <= at {
            return Ok(());
        }
        Err(self.odd(at))
    }

    /// The bytes of the word at a place.
    pub(crate) fn bytes(self, at: usize) -> Result<&'a [u8], TestFault>
        ensures found { IfOk result (λ t. text_at (line_view self.entry) at
            ≡ Ok t.now) }
        ensures none { IfErr result (λ f. text_at (line_view self.entry) at ≡ Err f) }
    {
        text_of(self.word(at)?)
    }

    /// The text of the word at a place.
    pub(crate) fn text(self, alloc: Global, at: usize) -> Result<Text, Stopped>
        ensures { Gives result (text_at (line_view self.entry) at) }
    {
        let bytes = self.bytes(at)?;
        Ok(Text::new(alloc, bytes)?)
    }

    /// Where the word at a place stands.
    pub(crate) fn place(self, at: usize) -> usize
        ensures { result ≡ place_at (line_view self.entry) at }
    {
        match self.words.get(at) {
            Some(word) => place_of(word),
            None => 0,
        }
    }

    /// The address with its port at a place.
    pub(crate) fn address(self, at: usize) -> Result<Addr, TestFault>
        ensures { result ≡ address_at (line_view self.entry) at }
    {
        address_in(self.word(at)?)
    }

    /// The address of a client at a place.
    pub(crate) fn source(self, at: usize) -> Result<Addr, TestFault>
        ensures { result ≡ source_at (line_view self.entry) at }
    {
        source_in(self.word(at)?)
    }

    /// The number at a place.
    pub(crate) fn number(self, most: u64, at: usize) -> Result<u64, TestFault>
        ensures { result ≡ number_at most (line_view self.entry) at }
    {
        number_in(most, self.word(at)?)
    }

    /// What stands in the braces of the word at a place.
    pub(crate) fn braces(self, at: usize) -> Result<Span, TestFault>
        ensures { result ≡ braces_at (line_view self.entry) at }
    {
        braces_in(self.word(at)?)
    }
}
