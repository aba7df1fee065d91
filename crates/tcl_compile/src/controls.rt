// `expr`, `while`, `for`, `foreach` and `catch`.

ghost use Rattle.std.specs.Prelude.{◌≡◌, ◌≤◌, IfOk, map};
ghost use Rattle.tcl_words.specs.View.{word_view};
ghost use Rattle.tcl_trees.specs.Compiled.{level};
ghost use Rattle.tcl_trees.specs.Controls.{catch_at, each_at, expr_at, for_at, while_at};
ghost use Rattle.tcl_trees.specs.Tree.{catch_in, loop};
ghost use Rattle.tcl_trees.specs.TreeView.{node_view};

use crate::compiler::Compiler;
use crate::forms::{catch_form, foreach_form};
use crate::notes::nothing;
use crate::texts::is_substituted;
use crate::zip::zip;
use px_bytes::M;
use std::alloc::Global;
use tcl_trees::{Node, Verb};
use tcl_words::Word;

/// Both in boxes.
fn boxed(alloc: Global, first: Node, second: Node) -> M<(Box<Node>, Box<Node>)>
    ensures { IfOk result (λ p. (p.0.value ≡ first) × (p.1.value ≡ second)) }
{
    let (second, first) = zip(second, Box::new(alloc, first))?;
    let (first, second) = zip(first, Box::new(alloc, second))?;
    Ok((first, second))
}

/// A loop of these.
fn loop_of(alloc: Global, start: Node, test: Node, next: Node, body: Node) -> M<Node>
    ensures { IfOk result (λ v. node_view v
        ≡ loop (node_view start) (node_view test) (node_view next) (node_view body)) }
{
    let ((next, body), (start, test)) = zip((next, body), boxed(alloc, start, test))?;
    let ((start, test), (next, body)) = zip((start, test), boxed(alloc, next, body))?;
    Ok(Node::Loop {
        start,
        test,
        next,
        body,
    })
}

/// A `catch` with a name.
fn caught_in(alloc: Global, body: Node, name: Node) -> M<Node>
    ensures { IfOk result (λ v. node_view v ≡ catch_in (node_view body) (node_view name)) }
{
    let (body, name) = boxed(alloc, body, name)?;
    Ok(Node::CatchIn { body, name })
}

impl Compiler {
    /// An `expr`: that of one word without substitution is read at once.
    #[cycle(compiled)]
    pub(crate) fn expr(
        &mut self,
        alloc: Global,
        base: usize,
        at: usize,
        words: &[Word],
        levels: usize,
    ) -> M<Node>
        requires bounded { levels ≤ 101 }
        ensures { IfOk result (λ v. expr_at (level levels) base at (map word_view words.now)
            self.old.findings ≡ (node_view v, self.new.findings)) }
    {
        match words {
            [_, word] if !is_substituted(word) => {
                let expression = self.condition(alloc, base, word, levels)?;
                Ok(Node::Expr(Box::new(alloc, expression)?))
            }
            _ => self.evaluated(alloc, base, at, Verb::ExprOfWords, words, levels),
        }
    }

    /// A `while`.
    #[cycle(compiled)]
    pub(crate) fn while_loop(
        &mut self,
        alloc: Global,
        base: usize,
        at: usize,
        words: &[Word],
        levels: usize,
    ) -> M<Node>
        requires bounded { levels ≤ 101 }
        ensures { IfOk result (λ v. while_at (level levels) base at (map word_view words.now)
            self.old.findings ≡ (node_view v, self.new.findings)) }
    {
        let [_, test, body] = words else {
            return Ok(self.wrong_number(alloc, base, at));
        };
        let test = self.condition(alloc, base, test, levels)?;
        let (test, body) = zip(test, self.body(alloc, base, body, levels))?;
        loop_of(alloc, nothing(alloc), test, nothing(alloc), body)
    }

    /// A `for`.
    #[cycle(compiled)]
    pub(crate) fn for_loop(
        &mut self,
        alloc: Global,
        base: usize,
        at: usize,
        words: &[Word],
        levels: usize,
    ) -> M<Node>
        requires bounded { levels ≤ 101 }
        ensures { IfOk result (λ v. for_at (level levels) base at (map word_view words.now)
            self.old.findings ≡ (node_view v, self.new.findings)) }
    {
        let [_, start, test, next, body] = words else {
            return Ok(self.wrong_number(alloc, base, at));
        };
        let start = self.body(alloc, base, start, levels)?;
        let (start, test) = zip(start, self.condition(alloc, base, test, levels))?;
        let ends = zip((start, test), self.body(alloc, base, next, levels))?;
        let (((start, test), next), body) = zip(ends, self.body(alloc, base, body, levels))?;
        loop_of(alloc, start, test, next, body)
    }

    /// A `foreach`.
    #[cycle(compiled)]
    pub(crate) fn foreach(
        &mut self,
        alloc: Global,
        base: usize,
        at: usize,
        words: &[Word],
        levels: usize,
    ) -> M<Node>
        requires bounded { levels ≤ 101 }
        ensures { IfOk result (λ v. each_at (level levels) base at (map word_view words.now)
            self.old.findings ≡ (node_view v, self.new.findings)) }
    {
        let Some((names, body)) = foreach_form(words) else {
            return Ok(self.wrong_number(alloc, base, at));
        };
        let words = self.words(alloc, base, names, levels)?;
        let body = self.body(alloc, base, body, levels)?;
        let body = Box::new(alloc, body)?;
        Ok(Node::Foreach { words, body })
    }

    /// A `catch`.
    #[cycle(compiled)]
    pub(crate) fn catch(
        &mut self,
        alloc: Global,
        base: usize,
        at: usize,
        words: &[Word],
        levels: usize,
    ) -> M<Node>
        requires bounded { levels ≤ 101 }
        ensures { IfOk result (λ v. catch_at (level levels) base at (map word_view words.now)
            self.old.findings ≡ (node_view v, self.new.findings)) }
    {
        let Some((body, name)) = catch_form(words) else {
            return Ok(self.wrong_number(alloc, base, at));
        };
        let body = self.body(alloc, base, body, levels)?;
        match name {
            Some(name) => {
                let (body, name) = zip(body, self.word(alloc, base, name, levels))?;
                caught_in(alloc, body, name)
            }
            None => Ok(Node::Catch(Box::new(alloc, body)?)),
        }
    }
}
