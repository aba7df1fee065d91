// Expressions as they are read: a row of operators is one node, so that only what opens something
// leads further down.

use crate::{Op1, Op2};
use px_bytes::Text;
use tcl_words::Part;

/// What stands between two operands. `And` and `Or` evaluate their right operand only where the
/// left one doesn't decide.
#[derive(Clone, Copy, PartialEq, Eq)]
pub enum Joint {
    Both(Op2),
    /// `&&` and `and`.
    And,
    /// `||` and `or`.
    Or,
}

/// An expression.
#[derive(Drop)]
pub enum Expr {
    /// A number, `true` or `false`, as written.
    Literal(Text),
    /// A quoted or braced text, a variable or a bracket: the joined values of the parts.
    Parts(Vec<Part>),
    /// Operators before an operand, the outermost first.
    Prefixed(Vec<Op1>, Box<Expr>),
    /// Operands of one row of operators, which group from the left.
    Row(Box<Expr>, Vec<(Joint, Expr)>),
    /// `CONDITION ? VALUE : ..`: the value beside the first condition that holds, or else the last
    /// expression's value.
    Choice(Vec<(Expr, Expr)>, Box<Expr>),
}
