//! The pure text commands: `string`, `format` and `getfield`.
#![tactic(auto)]

mod answer;
mod case;
mod conversion;
mod edges;
mod field;
mod field_text;
mod first_keys;
mod flaw;
mod form;
mod form_words;
mod format_command;
mod getfield_command;
mod levels;
mod mapping;
mod order;
mod part;
mod repetition;
mod search;
mod string_command;
mod suffixes;
mod trim;

pub use format_command::format;
pub use getfield_command::getfield;
pub use string_command::string;
