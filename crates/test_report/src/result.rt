// What tests came to.

use px_bytes::{Text, Texts};

/// What a test came to.
#[derive(Drop)]
pub struct TestResult {
    pub file: Text,
    /// The line of the test in its file.
    pub line: usize,
    pub name: Text,
    pub runs: usize,
    pub passed: bool,
    pub failure: Texts,
}
