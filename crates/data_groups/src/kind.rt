// Kinds of data groups, and the tests of a row.

/// What the keys of a data group are: texts, networks or whole numbers.
#[derive(Clone, Copy, PartialEq, Eq)]
pub enum GroupKind {
    String,
    Ip,
    Integer,
}

/// How an item and a key are compared.
#[derive(Clone, Copy, PartialEq, Eq)]
pub enum ClassOp {
    Equals,
    StartsWith,
    EndsWith,
    Contains,
}
