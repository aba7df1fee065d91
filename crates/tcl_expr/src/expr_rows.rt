// The readers of expressions: a row of operators over the tighter rows, down to what an opener
// encloses. They call one another, as deep as constructs may stand inside one another.

ghost use Rattle.std.specs.Prelude.{◌≡◌, ◌≤◌, ◌<◌, ◌-◌, length, IfOk, IfErr};
ghost use Rattle.tcl_words.specs.Skips.{turns};
ghost use Rattle.tcl_expr.specs.ExpressionReading.{and_then, cases_at, choice_of, closed_by, enclosed_at};
ghost use Rattle.tcl_expr.specs.ExpressionReading.{more_at, operand_at, row_at, row_of, whole_at};
ghost use Rattle.tcl_expr.specs.ExpressionView.{cases_view, expr_view, more_view};
ghost use Rattle.tcl_expr.specs.Outcome.{Reads};
ghost use Rattle.tcl_expr.specs.declared.expr_fault.ExprFault.TheVariants.{Memory as OutOfMemory};

use crate::expr::{Expr, Joint};
use crate::expr_fault::{ExprFault, Misread};
use crate::operand::{braced, braced_name, bracket, literal, quoted, variable};
use crate::operator_rows::joint_at;
use crate::prefixes::{prefixed, prefixes};
use crate::tokens::white_end;
use std::alloc::Global;
use tcl_words::{opens_name, stands, starts_variable};

/// The loosest row, over which conditions stand.
pub(crate) const ROWS: u8 = 13;

/// Takes the byte that ends what was read, and the white space after it.
#[tactic(auto, using(crate::proofs::Places::byte_within), unfolding(crate::specs::ExpressionReading::closed_by))]
fn closed(text: &[u8], byte: u8, inside: Expr, at: usize) -> Result<(Expr, usize), ExprFault>
    requires { at ≤ length text.now }
    ensures reads { Reads expr_view result (closed_by byte text.now (expr_view inside) at) }
    ensures within { IfOk result (λ r. r.1 ≤ length text.now) }
    ensures onward { IfOk result (λ r. at < r.1) }
{
    if !stands(text, at, byte) {
        return Err(ExprFault::Fault(Misread::Syntax(at)));
    }
    Ok((inside, white_end(text, at + 1)))
}

/// Reads what the opener at the place encloses, with room for so many openers.
#[cycle(expression)]
fn enclosed(
    alloc: Global,
    text: &[u8],
    opener: usize,
    room: usize,
) -> Result<(Expr, usize), ExprFault>
    requires { opener < length text.now }
    ensures reads { Reads expr_view result (enclosed_at room text.now opener) }
    ensures within { IfOk result (λ r. r.1 ≤ length text.now) }
    ensures onward { IfOk result (λ r. opener < r.1) }
{
    if room == 0 {
        return Err(ExprFault::Fault(Misread::TooDeep(opener)));
    }
    whole(alloc, text, white_end(text, opener + 1), room - 1)
}

/// Reads what stands from the opener at the place to the byte that closes it.
#[cycle(expression)]
fn between(
    alloc: Global,
    text: &[u8],
    at: usize,
    room: usize,
    closer: u8,
) -> Result<(Expr, usize), ExprFault>
    requires { at < length text.now }
    ensures reads { Reads expr_view result
        (and_then (enclosed_at room text.now at) (closed_by closer text.now)) }
    ensures within { IfOk result (λ r. r.1 ≤ length text.now) }
    ensures onward { IfOk result (λ r. at < r.1) }
{
    let (inside, end) = enclosed(alloc, text, at, room)?;
    closed(text, closer, inside, end)
}

/// Reads one operand.
#[cycle(expression)]
fn operand(alloc: Global, text: &[u8], at: usize, room: usize) -> Result<(Expr, usize), ExprFault>
    requires { at ≤ length text.now }
    ensures reads { Reads expr_view result
        (operand_at room (enclosed_at room text.now) text.now at) }
    ensures within { IfOk result (λ r. r.1 ≤ length text.now) }
    ensures onward { IfOk result (λ r. at < r.1) }
{
    if stands(text, at, b'(') {
        return between(alloc, text, at, room, b')');
    }
    if stands(text, at, b'"') {
        return quoted(alloc, text, at, room);
    }
    if stands(text, at, b'{') {
        return braced(alloc, text, at, room);
    }
    if stands(text, at, b'[') {
        return bracket(alloc, text, at, room);
    }
    if opens_name(text, at) {
        return braced_name(alloc, text, at, room);
    }
    if starts_variable(text, at) {
        return variable(alloc, text, at, room);
    }
    literal(alloc, text, at)
}

/// Reads a row of operators: the operators before its first operand, and its operands.
#[cycle(expression)]
fn row(
    alloc: Global,
    text: &[u8],
    at: usize,
    room: usize,
    row_number: u8,
) -> Result<(Expr, usize), ExprFault>
    requires within { at ≤ length text.now }
    requires row { row_number ≤ 13 }
    ensures reads { Reads expr_view result
        (row_at row_number (operand_at room (enclosed_at room text.now) text.now) text.now at) }
    ensures within { IfOk result (λ r. r.1 ≤ length text.now) }
    ensures onward { IfOk result (λ r. at < r.1) }
{
    if row_number == 0 {
        return operand(alloc, text, at, room);
    }
    let (operators, start) = prefixes(alloc, text, at, row_number)?;
    let (first, mid) = row(alloc, text, start, room, row_number - 1)?;
    let (rest, end) = rest(alloc, text, mid, room, row_number)?;
    let first = prefixed(alloc, operators, first)?;
    Ok((joined(alloc, first, rest)?, end))
}

/// Reads the operators and operands with which a row goes on.
#[cycle(expression)]
fn rest(
    alloc: Global,
    text: &[u8],
    start: usize,
    room: usize,
    row_number: u8,
) -> Result<(Vec<(Joint, Expr)>, usize), ExprFault>
    requires within { start ≤ length text.now }
    requires row { row_number ≤ 13 }
    requires some { 0 < row_number }
    ensures reads { Reads (λ v. more_view v.items) result (more_at row_number
        (row_at (row_number - 1) (operand_at room (enclosed_at room text.now) text.now) text.now)
        text.now (turns text.now) start) }
    ensures within { IfOk result (λ r. r.1 ≤ length text.now) }
    ensures onward { IfOk result (λ r. start ≤ r.1) }
{
    let mut rest = Vec::new(alloc);
    let mut at = start;
    while let Some((joint, end)) = joint_at(row_number, text, at) {
        let (operand, next) = row(alloc, text, white_end(text, end), room, row_number - 1)?;
        rest.push((joint, operand))?;
        at = next;
    }
    Ok((rest, at))
}

/// The operands of one row as one expression.
fn joined(alloc: Global, first: Expr, rest: Vec<(Joint, Expr)>) -> Result<Expr, ExprFault>
    ensures value { IfOk result (λ e. expr_view e ≡ row_of (expr_view first) (more_view rest.items)) }
    ensures err { IfErr result (λ e. e ≡ OutOfMemory) }
{
    if rest.is_empty() {
        return Ok(first);
    }
    Ok(Expr::Row(Box::new(alloc, first)?, rest))
}

/// Reads a whole expression, or one that is enclosed: conditions with their values, and the last
/// value.
#[cycle(expression)]
pub(crate) fn whole(
    alloc: Global,
    text: &[u8],
    start: usize,
    room: usize,
) -> Result<(Expr, usize), ExprFault>
    requires { start ≤ length text.now }
    ensures reads { Reads expr_view result
        (whole_at room (enclosed_at room text.now) text.now start) }
    ensures within { IfOk result (λ r. r.1 ≤ length text.now) }
    ensures onward { IfOk result (λ r. start < r.1) }
{
    let mut cases = Vec::new(alloc);
    let mut at = start;
    loop {
        let (condition, end) = row(alloc, text, at, room, ROWS)?;
        if !stands(text, end, b'?') {
            return Ok((chosen(alloc, cases, condition)?, end));
        }
        let (value, next) = between(alloc, text, end, room, b':')?;
        cases.push((condition, value))?;
        at = next;
    }
}

/// The conditions with their values, and the last value, as one expression.
fn chosen(alloc: Global, cases: Vec<(Expr, Expr)>, last: Expr) -> Result<Expr, ExprFault>
    ensures value { IfOk result
        (λ e. expr_view e ≡ choice_of (cases_view cases.items) (expr_view last)) }
    ensures err { IfErr result (λ e. e ≡ OutOfMemory) }
{
    if cases.is_empty() {
        return Ok(last);
    }
    Ok(Expr::Choice(cases, Box::new(alloc, last)?))
}
