//! Scripts: the whole type and its reader.
#![tactic(auto)]

mod deep;
mod enclosed;
mod escapes;
mod finish;
mod laws;
mod parse_fault;
mod parser;
mod places;
mod progress;
mod read;
mod script;
mod skips;
mod values;

pub use laws::{one_reading, reading_is_grammar, rules_of_the_source};
pub use parse_fault::{Fault, ParseFault};
pub use parser::{LIMIT, parse};
pub use places::{after_blank, opens_name, skips_newline, stands, starts_variable};
pub use progress::Progress;
pub use script::{Form, Part, Script, ScriptCommand, Span, Word};
