// Bodies and conditions, which are read from their bytes in the source.

ghost use Rattle.std.specs.Prelude.{◌≡◌, ◌<◌, ◌≤◌, IfOk};
ghost use Rattle.tcl_words.specs.View.{word_view};
ghost use Rattle.tcl_trees.specs.Compiled.{expression_text_at, level, room_inside, text_at};
ghost use Rattle.tcl_trees.specs.TreeView.{node_view};

use crate::compiler::Compiler;
use crate::notes::nothing;
use crate::places::{moved_misread, place_in};
use crate::reads::{read_expression, read_script};
use px_bytes::M;
use std::alloc::Global;
use tcl_trees::{Flaw, Node, Opened};
use tcl_words::{Form, Word};

/// The most rows, prefixes and choices of an expression that stand inside one another; a text with
/// a hundred openers has fewer.
const NESTING: usize = 4_000;

/// How many openers more may be open inside a word of the form.
fn room_inside(room: usize, form: Form) -> usize
    ensures value { result ≡ room_inside room form }
    ensures within { result ≤ room }
{
    match form {
        Form::Bare => room,
        Form::Quoted | Form::Braced => room.saturating_sub(1),
    }
}

impl Compiler {
    /// The script that a text is, which begins at the place of the source. What was read before a
    /// fault is looked at too.
    #[cycle(compiled)]
    pub(crate) fn text(
        &mut self,
        alloc: Global,
        place: usize,
        text: &[u8],
        room: usize,
        levels: usize,
    ) -> M<Node>
        requires bounded { levels ≤ 101 }
        ensures { IfOk result (λ v. text_at (level levels) room place text.now self.old.findings
            ≡ (node_view v, self.new.findings)) }
    {
        let (script, fault) = read_script(alloc, text, room)?;
        self.note_fault(place, fault);
        self.script(alloc, place, &script.commands, levels)
    }

    /// The expression that a text is, which begins at the place of the source.
    #[cycle(compiled)]
    pub(crate) fn expression_text(
        &mut self,
        alloc: Global,
        place: usize,
        text: &[u8],
        room: usize,
        levels: usize,
    ) -> M<Node>
        requires bounded { levels ≤ 101 }
        requires room_bounded { room ≤ 100 }
        ensures { IfOk result (λ v. expression_text_at (level levels) room place text.now self.old.findings
            ≡ (node_view v, self.new.findings)) }
    {
        match read_expression(alloc, text, room)? {
            Ok(expr) => {
                let opened = Opened { at: 0, count: 0 };
                let (node, _) = self.expression(
                    alloc, place, text, &expr, opened, levels, NESTING,
                )?;
                Ok(node)
            }
            Err(fault) => {
                self.findings.note(Flaw::Expr(moved_misread(place, fault)));
                Ok(nothing(alloc))
            }
        }
    }

    /// A word as a body.
    #[cycle(compiled)]
    pub(crate) fn body(&mut self, alloc: Global, base: usize, word: &Word, levels: usize) -> M<Node>
        requires bounded { levels ≤ 101 }
        ensures { IfOk result (λ v. (level levels).body base (word_view word.now) self.old.findings
            ≡ (node_view v, self.new.findings)) }
    {
        if levels == 0 {
            return Ok(self.too_deep(alloc, place_in(base, word.span.start)));
        }
        match &word.raw {
            Some(raw) => {
                let place = place_in(base, word.inner.start);
                let room = room_inside(levels - 1, word.form);
                self.text(alloc, place, raw.as_bytes(), room, levels - 1)
            }
            None => Ok(self.no_body(alloc, base, word)),
        }
    }

    /// A word as a condition.
    #[cycle(compiled)]
    pub(crate) fn condition(
        &mut self,
        alloc: Global,
        base: usize,
        word: &Word,
        levels: usize,
    ) -> M<Node>
        requires bounded { levels ≤ 101 }
        ensures { IfOk result (λ v. (level levels).condition base (word_view word.now) self.old.findings
            ≡ (node_view v, self.new.findings)) }
    {
        if levels == 0 {
            return Ok(self.too_deep(alloc, place_in(base, word.span.start)));
        }
        match &word.raw {
            Some(raw) => {
                let place = place_in(base, word.inner.start);
                let room = room_inside(levels - 1, word.form);
                self.expression_text(alloc, place, raw.as_bytes(), room, levels - 1)
            }
            None => Ok(self.no_body(alloc, base, word)),
        }
    }
}
