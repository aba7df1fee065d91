//! What `HTTP::respond` sends: the words of an answer, its head and its content.
#![tactic(auto)]

mod answer;
mod compose;
mod given;
mod laws;
mod options;
mod reasons;
mod refusals;

pub use answer::Answer;
pub use compose::composed;
pub use given::{are_fields, gives_close};
pub use laws::{answers_are_read, refusals_are_answers};
pub use options::{behind_first, content_of, field_words, has_server, is_answer, version_of};
pub use refusals::{continue_text, refusal};
