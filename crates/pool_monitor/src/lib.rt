//! Probes of the members of pools, and which members they mark up or down.
#![tactic(auto)]

mod ask;
mod board;
mod closing;
mod document;
mod due;
mod exchange;
mod index;
mod key;
mod keys;
mod laws;
mod made;
mod mark;
mod marking;
mod monitor;
mod place;
mod probe;
mod reader;
mod sending;
mod table;
mod told;
mod value;
mod verdict;

pub use board::Board;
pub use laws::{marks_are_defined, read_are_new};
pub use mark::{Mark, Marks};
pub use monitor::{HttpCheck, Monitor};
pub use probe::{OpenProbe, ProbedMember};
pub use reader::read_monitors;
pub use verdict::ProbeVerdict;
