// Operands of expressions that open nothing that is an expression.

ghost use Rattle.std.specs.Prelude.{◌≡◌, ◌≤◌, ◌<◌, ◌+◌, [], ◌∷◌, length, IfOk, IfErr, true};
ghost use Rattle.std.specs.Prelude.{slice_range};
ghost use Rattle.tcl_expr.specs.declared.expr_fault.ExprFault.TheVariants.{Memory as OutOfMemory};
ghost use Rattle.tcl_words.specs.Places.{opens_name, stands};
ghost use Rattle.tcl_words.specs.Reading.{level, read_braced, read_name, read_variable};
ghost use Rattle.tcl_words.specs.View.{part_view, parts_view};
ghost use Rattle.tcl_expr.specs.ExpressionReading.{from, literal_at, misread, taken, taken_bracket};
ghost use Rattle.tcl_expr.specs.ExpressionReading.{taken_part, taken_word, written};
ghost use Rattle.tcl_expr.specs.ExpressionView.{expr_view};
ghost use Rattle.tcl_expr.specs.Outcome.{Reads};

use crate::expr::Expr;
use crate::expr_fault::{ExprFault, Misread};
use crate::tokens::{digit_stands, number_end, reads_word, white_end};
use px_bytes::Text;
use std::alloc::Global;
use tcl_words::{Fault, Part, Progress, Span};

/// The fault of an expression that a fault of what it holds is.
fn misread(fault: Fault) -> Misread
    ensures { result ≡ misread fault }
{
    match fault {
        Fault::TooDeep(at) => Misread::TooDeep(at),
        _ => Misread::Syntax(fault.place()),
    }
}

/// The operand with these parts, where they have no fault.
#[tactic(auto, unfolding(crate::specs::ExpressionReading::taken))]
fn taken(text: &[u8], parts: Vec<Part>, progress: Progress) -> Result<(Expr, usize), ExprFault>
    requires { progress.at ≤ length text.now }
    ensures reads { Reads expr_view result (taken text.now (parts_view parts.items) progress) }
    ensures within { IfOk result (λ r. r.1 ≤ length text.now) }
    ensures onward { IfOk result (λ r. progress.at ≤ r.1) }
{
    match progress.fault {
        None => Ok((Expr::Parts(parts), white_end(text, progress.at))),
        Some(fault) => Err(ExprFault::Fault(misread(fault))),
    }
}

/// The literal from one place up to another.
fn written(alloc: Global, text: &[u8], at: usize, end: usize) -> Result<(Expr, usize), ExprFault>
    requires ordered { at ≤ end }
    requires within { end ≤ length text.now }
    ensures reads { Reads expr_view result (written text.now at end) }
    ensures within { IfOk result (λ r. r.1 ≤ length text.now) }
    ensures onward { IfOk result (λ r. end ≤ r.1) }
{
    let literal = Text::new(alloc, &text[at..end])?;
    Ok((Expr::Literal(literal), white_end(text, end)))
}

/// Reads `true`, `false` or a number at the place.
#[tactic(auto, unfolding(crate::specs::ExpressionReading::literal_at))]
pub(crate) fn literal(alloc: Global, text: &[u8], at: usize) -> Result<(Expr, usize), ExprFault>
    requires { at ≤ length text.now }
    ensures reads { Reads expr_view result (literal_at text.now at) }
    ensures within { IfOk result (λ r. r.1 ≤ length text.now) }
    ensures onward { IfOk result (λ r. at < r.1) }
{
    if reads_word(text, at, b"true") {
        return written(alloc, text, at, at + 4);
    }
    if reads_word(text, at, b"false") {
        return written(alloc, text, at, at + 5);
    }
    if digit_stands(10, text, at) {
        return written(alloc, text, at, number_end(text, at));
    }
    Err(ExprFault::Fault(Misread::Syntax(at)))
}

/// Reads a quoted text at its opener.
pub(crate) fn quoted(
    alloc: Global,
    text: &[u8],
    at: usize,
    room: usize,
) -> Result<(Expr, usize), ExprFault>
    requires { at < length text.now }
    ensures reads { Reads expr_view result
        (taken_word text.now ((level room).quoted text.now (from at))) }
    ensures within { IfOk result (λ r. r.1 ≤ length text.now) }
    ensures onward { IfOk result (λ r. at < r.1) }
{
    let mut progress = Progress { at, fault: None };
    let word = progress.quoted(alloc, text, room)?;
    taken(text, word.parts, progress)
}

/// Reads a braced text at its opener.
pub(crate) fn braced(
    alloc: Global,
    text: &[u8],
    at: usize,
    room: usize,
) -> Result<(Expr, usize), ExprFault>
    requires { at < length text.now }
    ensures reads { Reads expr_view result
        (taken_word text.now (read_braced room text.now (from at))) }
    ensures within { IfOk result (λ r. r.1 ≤ length text.now) }
    ensures onward { IfOk result (λ r. at < r.1) }
{
    let mut progress = Progress { at, fault: None };
    let word = progress.braced(alloc, text, room)?;
    taken(text, word.parts, progress)
}

/// Reads a bracket at its opener.
pub(crate) fn bracket(
    alloc: Global,
    text: &[u8],
    at: usize,
    room: usize,
) -> Result<(Expr, usize), ExprFault>
    requires { at < length text.now }
    ensures reads { Reads expr_view result
        (taken_bracket at text.now ((level room).bracket text.now (from at))) }
    ensures within { IfOk result (λ r. r.1 ≤ length text.now) }
    ensures onward { IfOk result (λ r. at < r.1) }
{
    let mut progress = Progress { at, fault: None };
    let script = progress.bracket(alloc, text, room)?;
    let span = Span {
        start: at,
        end: progress.at,
    };
    let parts = single(alloc, Part::Bracket { span, script })?;
    taken(text, parts, progress)
}

/// Reads `${name}` at its dollar sign.
pub(crate) fn braced_name(
    alloc: Global,
    text: &[u8],
    at: usize,
    room: usize,
) -> Result<(Expr, usize), ExprFault>
    requires { opens_name text.now at ≡ true }
    ensures reads { Reads expr_view result (taken_part text.now (read_name room text.now (from at))) }
    ensures within { IfOk result (λ r. r.1 ≤ length text.now) }
    ensures onward { IfOk result (λ r. at < r.1) }
{
    let mut progress = Progress { at, fault: None };
    let part = progress.braced_name(alloc, text, room)?;
    let parts = single(alloc, part)?;
    taken(text, parts, progress)
}

/// Reads `$name` or `$name(index)` at its dollar sign.
pub(crate) fn variable(
    alloc: Global,
    text: &[u8],
    at: usize,
    room: usize,
) -> Result<(Expr, usize), ExprFault>
    requires { at < length text.now }
    ensures reads { Reads expr_view result
        (taken_part text.now (read_variable (level room) text.now (from at))) }
    ensures within { IfOk result (λ r. r.1 ≤ length text.now) }
    ensures onward { IfOk result (λ r. at < r.1) }
{
    let mut progress = Progress { at, fault: None };
    let part = progress.variable(alloc, text, room)?;
    let parts = single(alloc, part)?;
    taken(text, parts, progress)
}

/// One part alone.
fn single(alloc: Global, part: Part) -> Result<Vec<Part>, ExprFault>
    ensures ok { IfOk result (λ parts. parts.items ≡ part ∷ []) }
    ensures err { IfErr result (λ e. e ≡ OutOfMemory) }
{
    let mut parts = Vec::new(alloc);
    parts.push(part)?;
    Ok(parts)
}
