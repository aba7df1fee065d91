// Words that are evaluated, and commands that evaluate all of theirs.

ghost use Rattle.std.specs.Prelude.{◌≡◌, ◌≤◌, IfOk, map};
ghost use Rattle.tcl_words.specs.View.{part_view, parts_of, word_view};
ghost use Rattle.tcl_trees.specs.Compiled.{level};
ghost use Rattle.tcl_trees.specs.TreeView.{node_view, nodes_view};
ghost use Rattle.tcl_trees.specs.Words.{evaluated_at, part_at, parts_at, word_at, words_at};

use crate::compiler::Compiler;
use crate::fits::fits;
use crate::places::place_in;
use crate::texts::is_quoted;
use px_bytes::M;
use std::alloc::Global;
use tcl_trees::{Node, Verb};
use tcl_words::{Part, Word};

impl Compiler {
    /// The parts of a quoted word or an index, which an opener encloses.
    #[cycle(compiled)]
    fn enclosed(
        &mut self,
        alloc: Global,
        base: usize,
        at: usize,
        parts: &[Part],
        levels: usize,
    ) -> M<Vec<Node>>
        requires bounded { levels ≤ 101 }
        ensures { IfOk result (λ v. (level levels).parts base at
            (parts_of (map part_view parts.now)) self.old.findings
            ≡ (nodes_view v.items, self.new.findings)) }
    {
        if levels == 0 {
            self.note_deep(place_in(base, at));
            return Ok(Vec::new(alloc));
        }
        self.parts(alloc, base, parts, levels - 1)
    }

    /// One part of a word.
    #[cycle(compiled)]
    fn part(&mut self, alloc: Global, base: usize, part: &Part, levels: usize) -> M<Node>
        requires bounded { levels ≤ 101 }
        ensures { IfOk result (λ v. part_at (level levels) base (part_view part.now) self.old.findings
            ≡ (node_view v, self.new.findings)) }
    {
        match part {
            Part::Plain { text, .. } => Ok(Node::Plain(text.copy()?)),
            Part::Variable { name, .. } => Ok(Node::Variable(name.copy()?)),
            Part::Element { span, name, index } => {
                let name = name.copy()?;
                let index = self.enclosed(alloc, base, span.start, index, levels)?;
                Ok(Node::Element(name, index))
            }
            Part::Bracket { span, script } => {
                if levels == 0 {
                    return Ok(self.too_deep(alloc, place_in(base, span.start)));
                }
                self.script(alloc, base, &script.commands, levels - 1)
            }
        }
    }

    /// The parts of a word.
    #[cycle(compiled)]
    pub(crate) fn parts(
        &mut self,
        alloc: Global,
        base: usize,
        parts: &[Part],
        levels: usize,
    ) -> M<Vec<Node>>
        requires bounded { levels ≤ 101 }
        ensures { IfOk result (λ v. parts_at (level levels) base (map part_view parts.now) self.old.findings
            ≡ (nodes_view v.items, self.new.findings)) }
    {
        let mut nodes = Vec::new(alloc);
        for part in parts {
            let node = self.part(alloc, base, part, levels)?;
            nodes.push(node)?;
        }
        Ok(nodes)
    }

    /// A word that is evaluated.
    #[cycle(compiled)]
    pub(crate) fn word(&mut self, alloc: Global, base: usize, word: &Word, levels: usize) -> M<Node>
        requires bounded { levels ≤ 101 }
        ensures { IfOk result (λ v. word_at (level levels) base (word_view word.now) self.old.findings
            ≡ (node_view v, self.new.findings)) }
    {
        if is_quoted(word) {
            let parts = self.enclosed(alloc, base, word.span.start, &word.parts, levels)?;
            return Ok(Node::Word(parts));
        }
        let parts = self.parts(alloc, base, &word.parts, levels)?;
        Ok(Node::Word(parts))
    }

    /// Words that are evaluated.
    #[cycle(compiled)]
    pub(crate) fn words(
        &mut self,
        alloc: Global,
        base: usize,
        words: &[Word],
        levels: usize,
    ) -> M<Vec<Node>>
        requires bounded { levels ≤ 101 }
        ensures { IfOk result (λ v. words_at (level levels) base (map word_view words.now) self.old.findings
            ≡ (nodes_view v.items, self.new.findings)) }
    {
        let mut nodes = Vec::new(alloc);
        for word in words {
            let node = self.word(alloc, base, word, levels)?;
            nodes.push(node)?;
        }
        Ok(nodes)
    }

    /// A command at the place that evaluates all its words.
    #[cycle(compiled)]
    pub(crate) fn evaluated(
        &mut self,
        alloc: Global,
        base: usize,
        at: usize,
        verb: Verb,
        words: &[Word],
        levels: usize,
    ) -> M<Node>
        requires bounded { levels ≤ 101 }
        ensures { IfOk result (λ v. evaluated_at (level levels) base at verb
            (map word_view words.now) self.old.findings ≡ (node_view v, self.new.findings)) }
    {
        if !fits(verb, words) {
            return Ok(self.wrong_number(alloc, base, at));
        }
        self.note_name(base, at, verb, words)?;
        let nodes = self.words(alloc, base, words, levels)?;
        Ok(Node::Command(verb, nodes))
    }
}
