// The real ones, on this machine's loopback.

mod adapters;
mod descriptors;
mod exchange;
mod many;
mod side;
mod steps;

/// Nothing, or in words what did not go as it should.
type Went = Result<(), &'static str>;
