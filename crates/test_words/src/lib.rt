//! The words of `test` on the command line: which files are to be tested, and how.
#![tactic(auto)]

mod read_word;
mod words;

pub use words::{ReportForm, TestWords, begins_test, words_of};
