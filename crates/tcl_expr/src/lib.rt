//! Expressions as they are read, and the operators of expressions.
#![tactic(auto)]

mod apply;
mod arithmetic;
mod comparison;
mod division;
mod expr;
mod expr_fault;
mod expr_reader;
mod expr_rows;
mod laws;
mod number;
mod operand;
mod operator;
mod operator_fault;
mod operator_rows;
mod prefixes;
mod tokens;
mod truth;
mod whole_operator;

pub use apply::{apply1, apply2};
pub use expr::{Expr, Joint};
pub use expr_fault::{ExprFault, Misread};
pub use expr_reader::{parse_expr, parse_expr_within};
pub use laws::{
    division_adds_up, more_room_is_same, one_expression, precedence, reading_is_grammar, rows_bind,
};
pub use operator::{Op1, Op2};
pub use truth::read_truth;
pub use whole_operator::whole_2;
