//! The evaluator of a rule's tree by plain recursion. A body that waited for a reply is evaluated
//! anew from its beginning, with that reply behind the others.
#![tactic(auto)]

mod branches;
mod calls;
mod catches;
mod choice;
mod commands;
mod context;
mod expressions;
mod host;
mod loops;
mod plain;
mod run;
mod tree;
mod uncounted;
mod words;

pub use host::PlainHost;
pub use plain::{Plain, PlainCode, Replies, eval_plain};
