// Test files.

use crate::deed::{Deed, PlacedName};
use crate::expectation::Expectation;
use px_bytes::{Seq, Text, Texts};

/// Something that is done, and where its line stands.
#[derive(Drop)]
pub struct PlacedDeed {
    pub place: usize,
    pub deed: Deed,
}

/// A step of a test.
#[derive(Drop)]
pub enum TestStep {
    One(Deed),
    /// These are done one behind the other, with no rest between.
    Together(Seq<PlacedDeed>),
    Expect(Expectation),
}

/// A step of a test, and where its line stands.
#[derive(Drop)]
pub struct PlacedStep {
    pub place: usize,
    pub step: TestStep,
}

/// A test.
#[derive(Drop)]
pub struct TestCase {
    pub place: usize,
    pub name: Text,
    /// The number of its configuration among those of the file, from 0.
    pub config: usize,
    /// The names of its clients, in the order of their numbers.
    pub clients: Texts,
    pub steps: Seq<PlacedStep>,
}

/// A test file: its configurations and its tests, in the order of their places.
#[derive(Drop)]
pub struct TestFile {
    pub configs: Seq<PlacedName>,
    pub tests: Seq<TestCase>,
}
