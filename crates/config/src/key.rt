// Keys of tables.

/// What a text at a key must be.
#[derive(Clone, Copy)]
pub(crate) enum Form {
    Any,
    /// 1 to 64 letters, digits, `_`, `-`, `.` or `/`.
    Name,
    /// `A.B.C.D:PORT`.
    Address,
}

/// What stands at a key.
#[derive(Clone, Copy)]
pub(crate) enum Kind {
    /// A whole number in a range, and what is meant where there is none.
    Whole { low: u32, high: u32, usual: u32 },
    /// True or false; false is meant where there is none.
    Truth,
    Text(Form),
    /// One of these texts; the first is meant where there is none.
    OneOf(&'static [&'static str]),
    /// An array of so many items at most; none are meant where there is none.
    Array { most: usize },
}

/// A key of a table.
#[derive(Clone, Copy)]
pub(crate) struct Key {
    pub name: &'static str,
    pub required: bool,
    pub kind: Kind,
}
