//! Moves of words, scripts, commands and calls.
#![tactic(auto)]

mod calls;
mod catches;
mod commands;
mod pieces;
mod scripts;
mod word_moves;
mod words;
mod words_first;

pub use calls::{Caller, enter, go_called};
pub use catches::{begin_catch, begin_caught_in, go_caught, go_caught_in};
pub use commands::{Done, by_words, next_after};
pub use scripts::{go_script, script_from};
pub use word_moves::{begin_pieces, go_pieces};
pub use words::{Gathered, word_behind};
pub use words_first::first_words;
