//! What a rule does: the evaluator's definition and its laws.
#![tactic(auto)]

mod code;
mod laws;

pub use code::Code;
pub use laws::{
    acts_stay, asked_by_none_waits_never, callers_variables_stay, calls_keep_levels,
    host_shows_acts, more_replies_only_lengthen, spent_budget_passes, turns_show_no_number,
    wider_host_agrees, words_go_from_the_left,
};
