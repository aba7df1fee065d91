//! Rules are tested: `test FILE..` reads test files, makes each run of each test, and tells what it
//! came to.
#![tactic(auto)]

mod all_tests;
mod command;
mod one_test;
mod places;
mod say;

pub use command::test_command;
