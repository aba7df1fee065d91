//! `expr` of several words, or of one with a substitution: its tree is read when it runs.
#![tactic(auto)]

mod expression;

pub use expression::read_expression;
