// The words of `test` on the command line.

ghost use Rattle.std.specs.Prelude.{◌≡◌, IfOk};
ghost use Rattle.test_words.specs.Words.{begins_test, no_words, read_all, words_in, words_of};

use crate::read_word::{Awaited, WordsRead};
use px_bytes::{M, Text, Texts};
use std::alloc::Global;

/// The form of a report.
#[derive(Clone, Copy, PartialEq, Eq)]
pub enum ReportForm {
    Plain,
    Tap,
    Junit,
}

/// What is to be tested, and how.
#[derive(Drop)]
pub struct TestWords {
    pub files: Texts,
    /// Each text is cut in each way.
    pub cuts: bool,
    /// What is done together happens in each order.
    pub orders: bool,
    /// Only tests of this name.
    pub only: Option<Text>,
    pub shape: Option<ReportForm>,
    /// The file of the events of a run.
    pub schedule: Option<Text>,
}

/// Whether the first word is `test`.
pub fn begins_test(words: &[Text]) -> bool
    ensures { result ≡ begins_test words.now }
{
    match words {
        [] => false,
        [first, ..] => first.as_bytes() == b"test".as_slice(),
    }
}

// What the words behind `test` say; None where they say nothing.
fn read_all(alloc: Global, words: &[Text]) -> M<Option<WordsRead>>
    ensures { IfOk result (λ read. read ≡ read_all words.now no_words) }
{
    let mut read = WordsRead::new(alloc);
    for word in words {
        if !read.word(alloc, word.as_bytes())? {
            drop(read);
            return Ok(None);
        }
    }
    Ok(Some(read))
}

// All that the words say, where they are whole.
fn whole(read: WordsRead) -> Option<TestWords>
    ensures { result ≡ words_in read }
{
    let WordsRead { awaited, said } = read;
    let is_whole = awaited == Awaited::Any
        && said.files.len() > 0
        && (said.schedule.is_none() || said.only.is_some());
    if is_whole {
        return Some(said);
    }
    drop(said);
    None
}

/// What the words say: `test FILE.. [--cuts all] [--orders all] [--only NAME] [--tap | --junit]
/// [--schedule FILE]`, in any order, each option once at most; a schedule is of the test of a name.
pub fn words_of(alloc: Global, words: &[Text]) -> M<Option<TestWords>>
    ensures { IfOk result (λ said. said ≡ words_of words.now) }
{
    let [first, rest @ ..] = words else {
        return Ok(None);
    };
    if first.as_bytes() != b"test".as_slice() {
        return Ok(None);
    }
    match read_all(alloc, rest)? {
        Some(read) => Ok(whole(read)),
        None => Ok(None),
    }
}
