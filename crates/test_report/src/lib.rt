//! The report of tests: plain, as TAP, or as JUnit.
#![tactic(auto)]

mod ascii;
mod joined;
mod junit;
mod plain;
mod report;
mod result;
mod tap;
mod xml;

pub use report::report_text;
pub use result::TestResult;
