// Keys of tables.

/// What stands at a key.
#[derive(Clone, Copy)]
pub(crate) enum Kind {
    /// A whole number in a range, and what is meant where there is none.
    Whole { low: u32, high: u32, usual: u32 },
    /// A text of so many bytes at least, and at most.
    Text { least: usize, most: usize },
    /// `tcp` or `http`.
    Probing,
    Array,
}

/// A key of a table.
#[derive(Clone, Copy)]
pub(crate) struct Key {
    pub name: &'static str,
    pub required: bool,
    pub kind: Kind,
}
