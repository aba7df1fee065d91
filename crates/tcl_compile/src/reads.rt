// Scripts and expressions in texts.

ghost use Rattle.std.specs.Prelude.{◌≡◌, ◌≤◌, IfOk};
ghost use Rattle.tcl_expr.specs.ExpressionReading.{expression_within};
ghost use Rattle.tcl_words.specs.View.{script_view};
ghost use Rattle.tcl_trees.specs.Compiled.{script_within};
ghost use Rattle.tcl_compile.specs.Reads.{seen_expression};

use px_bytes::{M, Memory};
use std::alloc::Global;
use tcl_expr::{Expr, ExprFault, Misread, parse_expr_within};
use tcl_words::{Fault, Progress, Script};

/// The script that the text is, in which so many openers may be open, as far as it can be read, and
/// its fault.
#[tactic(auto, unfolding(tcl_trees::specs::Compiled::script_within))]
pub(crate) fn read_script(alloc: Global, text: &[u8], room: usize) -> M<(Script, Option<Fault>)>
    ensures { IfOk result (λ r. script_within room text.now ≡ (script_view r.0, r.1)) }
{
    let mut progress = Progress { at: 0, fault: None };
    let script = progress.script(alloc, text, room, false)?;
    Ok((script, progress.fault))
}

/// The expression that the text is, in which so many openers may be open, or its fault.
pub(crate) fn read_expression(alloc: Global, text: &[u8], room: usize) -> M<Result<Expr, Misread>>
    requires { room ≤ 100 }
    ensures { IfOk result (λ r. expression_within room text.now ≡ seen_expression r) }
{
    match parse_expr_within(alloc, text, room) {
        Ok(expr) => Ok(Ok(expr)),
        Err(ExprFault::Fault(fault)) => Ok(Err(fault)),
        Err(ExprFault::Memory) => Err(Memory),
    }
}
