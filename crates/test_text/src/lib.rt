//! Test files of rules: their configurations and tests, or what is wrong with one and where.
#![tactic(auto)]

mod braces;
mod causes;
mod deed;
mod deeds;
mod expectation;
mod expected;
mod fault;
mod line;
mod names;
mod reader;
mod steps;
mod test_file;
mod told;

pub use deed::{Deed, Meeting, PeerDeed, PlacedAddr, PlacedName};
pub use expectation::{Expectation, Wished, WishedRow};
pub use fault::{Stopped, TestFault, TestFaultKind};
pub use reader::read_test_file;
pub use test_file::{PlacedDeed, PlacedStep, TestCase, TestFile, TestStep};
pub use told::fault_line;
