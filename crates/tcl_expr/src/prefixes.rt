// Operators before an operand.

ghost use Rattle.std.specs.Prelude.{◌≡◌, ◌≤◌, ◌<◌, length, IfOk, IfErr};
ghost use Rattle.tcl_words.specs.Skips.{turns};
ghost use Rattle.tcl_expr.specs.ExpressionReading.{prefixed_by, prefixes_at};
ghost use Rattle.tcl_expr.specs.ExpressionView.{expr_view};
ghost use Rattle.tcl_expr.specs.declared.expr_fault.ExprFault.TheVariants.{Memory as OutOfMemory};

use crate::expr::Expr;
use crate::expr_fault::ExprFault;
use crate::operator::Op1;
use crate::operator_rows::prefix_at;
use crate::tokens::white_end;
use std::alloc::Global;

/// Reads the operators before an operand of the row.
pub(crate) fn prefixes(
    alloc: Global,
    text: &[u8],
    start: usize,
    row: u8,
) -> Result<(Vec<Op1>, usize), ExprFault>
    requires { start ≤ length text.now }
    ensures value { IfOk result
        (λ r. prefixes_at row text.now (turns text.now) start ≡ (r.0.items, r.1)) }
    ensures within { IfOk result (λ r. r.1 ≤ length text.now) }
    ensures onward { IfOk result (λ r. start ≤ r.1) }
    ensures err { IfErr result (λ e. e ≡ OutOfMemory) }
{
    let mut operators = Vec::new(alloc);
    let mut at = start;
    while let Some((operator, end)) = prefix_at(row, text, at) {
        operators.push(operator)?;
        at = white_end(text, end);
    }
    Ok((operators, at))
}

/// An operand with the operators before it.
pub(crate) fn prefixed(alloc: Global, operators: Vec<Op1>, operand: Expr) -> Result<Expr, ExprFault>
    ensures value { IfOk result
        (λ e. expr_view e ≡ prefixed_by operators.items (expr_view operand)) }
    ensures err { IfErr result (λ e. e ≡ OutOfMemory) }
{
    if operators.is_empty() {
        return Ok(operand);
    }
    Ok(Expr::Prefixed(operators, Box::new(alloc, operand)?))
}
