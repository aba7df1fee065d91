//! What a run of a test comes to: what was given and told in it, and whether what its questions ask
//! holds.
#![tactic(auto)]

mod entry;
mod got;
mod lines;
mod questions;
mod rows;
mod standing;
mod verdict;

pub use entry::{ClientConn, RunEntry};
pub use got::{got_by, is_wished, question_at, same_side};
pub use lines::next_line;
pub use rows::row_told;
pub use standing::{asked_by, conn_of, finish_of, is_over};
pub use verdict::{RunEnd, Verdict, verdict_of};
