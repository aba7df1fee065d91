// The reader of expressions.

ghost use Rattle.std.specs.Prelude.{◌≡◌, ◌≤◌};
ghost use Rattle.tcl_expr.specs.ExpressionReading.{expression, expression_within};
ghost use Rattle.tcl_expr.specs.ExpressionView.{expr_view};
ghost use Rattle.tcl_expr.specs.GrammarLaws.{Grammatical};
ghost use Rattle.tcl_expr.specs.Outcome.{Outcome};

use crate::expr::Expr;
use crate::expr_fault::{ExprFault, Misread};
use crate::expr_rows::whole;
use crate::tokens::white_end;
use std::alloc::Global;
use tcl_words::LIMIT;

/// The expression that the text is, or its fault.
///
/// The time is linear in the text: at each operand and behind it each row looks for its operators,
/// which are words of a fixed length. The depth of the calls is that of what is open: parentheses,
/// quotes, brackets and a `?` before its `:`. A run of operators before an operand, a row and a
/// chain of conditions are read by loops.
#[tactic(auto, unfolding(crate::specs::ExpressionReading::expression))]
pub fn parse_expr(alloc: Global, text: &[u8]) -> Result<Expr, ExprFault>
    ensures exact { Outcome expr_view result (expression text.now) }
    ensures grammar { Grammatical expr_view 100 text.now result }
{
    parse_expr_within(alloc, text, LIMIT)
}

/// The same where so many constructs may be open at a place, a hundred at most.
#[tactic(auto, using(crate::proofs::ReadingIsGrammar::grammatical))]
pub fn parse_expr_within(alloc: Global, text: &[u8], room: usize) -> Result<Expr, ExprFault>
    requires { room ≤ 100 }
    ensures exact { Outcome expr_view result (expression_within room text.now) }
    ensures grammar { Grammatical expr_view room text.now result }
{
    read_within(alloc, text, room)
}

fn read_within(alloc: Global, text: &[u8], room: usize) -> Result<Expr, ExprFault>
    requires { room ≤ 100 }
    ensures { Outcome expr_view result (expression_within room text.now) }
{
    let (expr, end) = whole(alloc, text, white_end(text, 0), room)?;
    if end != text.len() {
        return Err(ExprFault::Fault(Misread::Syntax(end)));
    }
    Ok(expr)
}
