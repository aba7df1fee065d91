// The operators of expressions that evaluate all their operands.

/// An operator of one operand.
#[derive(Clone, Copy, PartialEq, Eq)]
pub enum Op1 {
    Plus,
    Neg,
    BitNot,
    /// `!` and `not`.
    Not,
}

/// An operator of two operands, in the order in which they bind, the tightest first.
#[derive(Clone, Copy, PartialEq, Eq)]
pub enum Op2 {
    Mul,
    Div,
    Mod,
    Add,
    Sub,
    Shl,
    Shr,
    Less,
    Greater,
    AtMost,
    AtLeast,
    /// `==`.
    NumEq,
    /// `!=`.
    NumNe,
    /// `eq` and `equals`.
    TextEq,
    /// `ne`.
    TextNe,
    Contains,
    StartsWith,
    EndsWith,
    /// `matches_glob` and `matches`.
    MatchesGlob,
    BitAnd,
    BitXor,
    BitOr,
}
