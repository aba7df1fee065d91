// How long a text may be.

/// The most bytes of a text that a command makes.
pub const TEXT_LIMIT: usize = 1_048_576;
