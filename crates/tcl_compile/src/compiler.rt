// Whole scripts.

ghost use Rattle.std.specs.Prelude.{◌≡◌, IfOk};
ghost use Rattle.tcl_words.specs.View.{script_view, word_view};
ghost use Rattle.tcl_trees.specs.Compiled.{compiled, compiled_body, compiled_expression};
ghost use Rattle.tcl_trees.specs.Compiled.{beginning, examined_body};
ghost use Rattle.tcl_compile.specs.Outcome.{Gives};
ghost use Rattle.tcl_trees.specs.TreeView.{node_view};

use crate::compile_fault::CompileFault;
use px_bytes::M;
use std::alloc::Global;
use tcl_trees::{Findings, Node};
use tcl_words::{LIMIT, Script, Word};

/// What compiles a script: it keeps what is found meanwhile.
#[derive(Drop)]
pub(crate) struct Compiler {
    pub findings: Findings,
}

impl Compiler {
    /// Nothing is found yet.
    fn new(alloc: Global) -> Compiler
        ensures { result.findings ≡ beginning }
    {
        Compiler {
            findings: Findings::new(alloc),
        }
    }
}

/// The tree that the script becomes, or its flaw with the least place.
///
/// A byte is read once for each body that it stands in, of which there are no more than a hundred,
/// and otherwise looked at a fixed number of times. The depth of the calls is that of what is open.
pub fn compile(alloc: Global, script: &Script) -> Result<Node, CompileFault>
    ensures { Gives result (compiled (script_view script.now)) }
{
    let mut compiler = Compiler::new(alloc);
    let node = compiler.script(alloc, 0, &script.commands, LIMIT + 1)?;
    match compiler.findings.flaw {
        None => Ok(node),
        Some(flaw) => Err(CompileFault::Flaw(flaw)),
    }
}

/// The tree of a word that is a body in the script of its text, or its flaw with the least place.
pub fn compile_body(alloc: Global, word: &Word) -> Result<Node, CompileFault>
    ensures { Gives result (compiled_body (word_view word.now)) }
{
    let mut compiler = Compiler::new(alloc);
    let node = compiler.body(alloc, 0, word, LIMIT + 1)?;
    match compiler.findings.flaw {
        None => Ok(node),
        Some(flaw) => Err(CompileFault::Flaw(flaw)),
    }
}

/// The tree of a word that is a body in the script of its text, and what was found in it. Where it
/// has a flaw, what the flaw is about is left out of the tree, and no names are found there.
pub fn examine_body(alloc: Global, word: &Word) -> M<(Node, Findings)>
    ensures { IfOk result (λ r. examined_body (word_view word.now) ≡ (node_view r.0, r.1)) }
{
    let mut compiler = Compiler::new(alloc);
    let node = compiler.body(alloc, 0, word, LIMIT + 1)?;
    Ok((node, compiler.findings))
}

/// The tree of an expression that is a text of its own, made while a script runs, or its flaw with
/// the least place, counted from 0 in the text.
///
/// A hundred constructs may be open at a place. That more are is told apart from other flaws by
/// `is_too_deep`: they are `Flaw::Parse(Fault::TooDeep(_))`, in a body inside a bracket, and
/// `Flaw::Expr(Misread::TooDeep(_))`.
pub fn compile_expression(alloc: Global, text: &[u8]) -> Result<Node, CompileFault>
    ensures { Gives result (compiled_expression text.now) }
{
    let mut compiler = Compiler::new(alloc);
    let node = compiler.expression_text(alloc, 0, text, LIMIT, LIMIT + 1)?;
    match compiler.findings.flaw {
        None => Ok(node),
        Some(flaw) => Err(CompileFault::Flaw(flaw)),
    }
}
