// Expressions as trees.

ghost use Rattle.std.specs.Prelude.{◌≡◌, ◌≤◌, IfOk, map};
ghost use Rattle.tcl_expr.specs.ExpressionView.{cases_view, expr_view, more_view};
ghost use Rattle.tcl_words.specs.View.{part_view};
ghost use Rattle.tcl_trees.specs.Compiled.{level};
ghost use Rattle.tcl_trees.specs.Conditions.{expression_at, operand, operands_at, parts_under};
ghost use Rattle.tcl_trees.specs.Conditions.{values_at};
ghost use Rattle.tcl_trees.specs.TreeView.{node_view, nodes_view, operands_view, values_view};

use crate::compiler::Compiler;
use crate::opened::scanned;
use crate::zip::zip;
use px_bytes::{M, Memory};
use std::alloc::Global;
use tcl_expr::{Expr, Joint};
use tcl_trees::{Node, Opened};
use tcl_words::Part;

/// An operand of these parts: one in quotes is a word, and any other its only part.
fn operand(quoted: bool, mut parts: Vec<Node>) -> Node
    ensures { node_view result ≡ operand quoted (nodes_view parts.items) }
{
    if quoted || parts.len() != 1 {
        return Node::Word(parts);
    }
    match parts.pop() {
        Some(part) => part,
        None => Node::Word(parts),
    }
}

impl Compiler {
    /// The parts around which so many openers stand.
    #[cycle(compiled)]
    fn under(
        &mut self,
        alloc: Global,
        base: usize,
        openers: usize,
        parts: &[Part],
        levels: usize,
    ) -> M<Vec<Node>>
        requires bounded { levels ≤ 101 }
        ensures { IfOk result (λ v. parts_under (level levels) base openers
            (map part_view parts.now) self.old.findings ≡ (nodes_view v.items, self.new.findings)) }
    {
        if openers > levels {
            self.note_deep(base);
            return Ok(Vec::new(alloc));
        }
        self.parts(alloc, base, parts, levels - openers)
    }

    /// An expression of a text that begins at `base`, in which no more than so many expressions
    /// stand inside one another: where more do it gives up as for out of memory.
    #[cycle(compiled)]
    pub(crate) fn expression(
        &mut self,
        alloc: Global,
        base: usize,
        text: &[u8],
        expr: &Expr,
        opened: Opened,
        levels: usize,
        nesting: usize,
    ) -> M<(Node, Opened)>
        requires bounded { levels ≤ 101 }
        requires nesting { nesting ≤ 4000 }
        ensures { IfOk result (λ r. expression_at (level levels) base text.now (expr_view expr.now)
            opened self.old.findings ≡ ((node_view r.0, r.1), self.new.findings)) }
    {
        if nesting == 0 {
            return Err(Memory);
        }
        match expr {
            Expr::Literal(bytes) => Ok((Node::Plain(bytes.copy()?), opened)),
            Expr::Parts(parts) => {
                let scanned = scanned(text, parts, opened);
                let nodes = self.under(alloc, base, scanned.openers, parts, levels)?;
                Ok((operand(scanned.quoted, nodes), scanned.behind))
            }
            Expr::Prefixed(operators, operand) => {
                let operators = Vec::from_slice(alloc, operators)?;
                let (operand, end) = self.expression(
                    alloc,
                    base,
                    text,
                    operand,
                    opened,
                    levels,
                    nesting - 1,
                )?;
                Ok((Node::Prefixed(operators, Box::new(alloc, operand)?), end))
            }
            Expr::Row(first, rest) => {
                let (first, mid) = self.expression(
                    alloc,
                    base,
                    text,
                    first,
                    opened,
                    levels,
                    nesting - 1,
                )?;
                let rest = self.operands(alloc, base, text, rest, mid, levels, nesting - 1);
                let (first, (rest, end)) = zip(first, rest)?;
                Ok((Node::Row(Box::new(alloc, first)?, rest), end))
            }
            Expr::Choice(cases, last) => {
                let (cases, mid) = self.values(
                    alloc,
                    base,
                    text,
                    cases,
                    opened,
                    levels,
                    nesting - 1,
                )?;
                let (last, end) = self.expression(
                    alloc,
                    base,
                    text,
                    last,
                    mid,
                    levels,
                    nesting - 1,
                )?;
                Ok((Node::Choice(cases, Box::new(alloc, last)?), end))
            }
        }
    }

    /// Operands behind the first one.
    #[cycle(compiled)]
    fn operands(
        &mut self,
        alloc: Global,
        base: usize,
        text: &[u8],
        rest: &[(Joint, Expr)],
        start: Opened,
        levels: usize,
        nesting: usize,
    ) -> M<(Vec<(Joint, Node)>, Opened)>
        requires bounded { levels ≤ 101 }
        requires nesting { nesting ≤ 4000 }
        ensures { IfOk result (λ r. operands_at (level levels) base text.now (more_view rest.now)
            start self.old.findings ≡ ((operands_view r.0.items, r.1), self.new.findings)) }
    {
        let mut operands = Vec::new(alloc);
        let mut opened = start;
        for (joint, expr) in rest {
            let (operand, end) = self.expression(alloc, base, text, expr, opened, levels, nesting)?;
            operands.push((*joint, operand))?;
            opened = end;
        }
        Ok((operands, opened))
    }

    /// Conditions with their values.
    #[cycle(compiled)]
    fn values(
        &mut self,
        alloc: Global,
        base: usize,
        text: &[u8],
        cases: &[(Expr, Expr)],
        start: Opened,
        levels: usize,
        nesting: usize,
    ) -> M<(Vec<(Node, Node)>, Opened)>
        requires bounded { levels ≤ 101 }
        requires nesting { nesting ≤ 4000 }
        ensures { IfOk result (λ r. values_at (level levels) base text.now (cases_view cases.now)
            start self.old.findings ≡ ((values_view r.0.items, r.1), self.new.findings)) }
    {
        let mut values = Vec::new(alloc);
        let mut opened = start;
        for (condition, expr) in cases {
            let (condition, mid) = self.expression(
                alloc, base, text, condition, opened, levels, nesting,
            )?;
            let value = self.expression(alloc, base, text, expr, mid, levels, nesting);
            let (condition, (value, end)) = zip(condition, value)?;
            values.push((condition, value))?;
            opened = end;
        }
        Ok((values, opened))
    }
}
