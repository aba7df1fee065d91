//! What one node of a rule's tree does with the values of its children: calls on plain values,
//! which every evaluator shares.
#![tactic(auto)]

mod calls;
mod caught;
mod choice;
mod goes;
mod operators;
mod own;
mod rows;
mod short_choices;
mod short_commands;
mod short_copy;
mod short_words;
mod values;
mod whole_rows;
mod word_parts;

pub use calls::{Call, bound, code_left, set_parameters, too_deep};
pub use caught::{catch_code, code_number, code_text, is_caught};
pub use choice::{first_body, hit_of};
pub use goes::{Goes, after_body, after_next};
pub use operators::{decide, joint_text, prefixed, truth_of, truth_text, whole_text};
pub use own::{code_of_reply, coded, is_own, own_command};
pub use rows::{Row, most_turns, rows_of, set_turn};
pub use short_commands::{command_at_once, commands_at_once};
pub use values::{element, literal, variable};
pub use whole_rows::{Work, whole_at_once};
pub use word_parts::parts;
