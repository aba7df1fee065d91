// `switch`.

ghost use Rattle.std.specs.Prelude.{◌≡◌, ◌≤◌, IfOk, map};
ghost use Rattle.tcl_words.specs.View.{word_view};
ghost use Rattle.tcl_trees.specs.CaseList.{case_item, listed};
ghost use Rattle.tcl_trees.specs.Compiled.{level};
ghost use Rattle.tcl_trees.specs.Controls.{case_word, cases_at, switch_at};
ghost use Rattle.tcl_trees.specs.Making.{in_turn};
ghost use Rattle.tcl_trees.specs.TreeView.{node_view, nodes_view};
ghost use Rattle.tcl_trees.specs.Words.{word_at};

use crate::case_list::word_items;
use crate::compiler::Compiler;
use crate::forms::{first_two, switch_form};
use crate::places::place_in;
use crate::texts::is_text;
use crate::zip::zip;
use px_bytes::M;
use std::alloc::Global;
use tcl_trees::{CaseItem, Node};
use tcl_words::Word;

impl Compiler {
    /// A body of a `switch` that is a word of its own.
    #[cycle(compiled)]
    fn case_word(
        &mut self,
        alloc: Global,
        base: usize,
        last: bool,
        word: &Word,
        levels: usize,
    ) -> M<Node>
        requires bounded { levels ≤ 101 }
        ensures { IfOk result (λ v. case_word (level levels) base last (word_view word.now) self.old.findings
            ≡ (node_view v, self.new.findings)) }
    {
        if is_text(word, b"-") {
            return Ok(self.next_body(alloc, place_in(base, word.span.start), last));
        }
        self.body(alloc, base, word, levels)
    }

    /// Patterns and bodies that are words of their own.
    #[cycle(compiled)]
    fn case_words(
        &mut self,
        alloc: Global,
        base: usize,
        words: &[Word],
        levels: usize,
    ) -> M<(Vec<Node>, Vec<Node>)>
        requires bounded { levels ≤ 101 }
        ensures { IfOk result (λ r. in_turn (word_at (level levels) base)
            (case_word (level levels) base) (map word_view words.now) self.old.findings
            ≡ ((nodes_view r.0.items, nodes_view r.1.items), self.new.findings)) }
    {
        let mut patterns = Vec::new(alloc);
        let mut bodies = Vec::new(alloc);
        let mut left = words;
        while let Some((pattern, body, behind)) = first_two(left) {
            let pattern = self.word(alloc, base, pattern, levels)?;
            let body = self.case_word(alloc, base, behind.is_empty(), body, levels);
            let (pattern, body) = zip(pattern, body)?;
            let (body, ()) = zip(body, patterns.push(pattern))?;
            bodies.push(body)?;
            left = behind;
        }
        Ok((patterns, bodies))
    }

    /// A body of the list that begins at the place.
    #[cycle(compiled)]
    fn case_item(
        &mut self,
        alloc: Global,
        place: usize,
        last: bool,
        item: &CaseItem,
        levels: usize,
    ) -> M<Node>
        requires bounded { levels ≤ 101 }
        ensures { IfOk result (λ v. case_item (level levels) place last item.now self.old.findings
            ≡ (node_view v, self.new.findings)) }
    {
        if !item.braced {
            return Ok(self.other_item(alloc, place, last, item));
        }
        let start = place_in(place, item.start);
        if levels == 0 {
            return Ok(self.too_deep(alloc, start));
        }
        let room = levels.saturating_sub(2);
        self.text(alloc, start, item.text.as_bytes(), room, levels - 1)
    }

    /// Patterns and bodies in a list that begins at the place.
    #[cycle(compiled)]
    fn listed(
        &mut self,
        alloc: Global,
        place: usize,
        items: &[CaseItem],
        levels: usize,
    ) -> M<(Vec<Node>, Vec<Node>)>
        requires bounded { levels ≤ 101 }
        ensures { IfOk result (λ r. listed (level levels) place items.now self.old.findings
            ≡ ((nodes_view r.0.items, nodes_view r.1.items), self.new.findings)) }
    {
        let mut patterns = Vec::new(alloc);
        let mut bodies = Vec::new(alloc);
        let mut left = items;
        while let Some((pattern, body, behind)) = first_two(left) {
            let pattern = Node::Plain(pattern.text.copy()?);
            let body = self.case_item(alloc, place, behind.is_empty(), body, levels);
            let (pattern, body) = zip(pattern, body)?;
            let (body, ()) = zip(body, patterns.push(pattern))?;
            bodies.push(body)?;
            left = behind;
        }
        Ok((patterns, bodies))
    }

    /// A word that holds patterns and bodies of the `switch` at the place.
    #[cycle(compiled)]
    fn cases_inside(
        &mut self,
        alloc: Global,
        base: usize,
        at: usize,
        word: &Word,
        levels: usize,
    ) -> M<(Vec<Node>, Vec<Node>)>
        requires bounded { levels ≤ 101 }
        ensures { IfOk result (λ r. (level levels).cases base at (word_view word.now) self.old.findings
            ≡ ((nodes_view r.0.items, nodes_view r.1.items), self.new.findings)) }
    {
        if levels == 0 {
            self.note_deep(place_in(base, word.span.start));
            return Ok((Vec::new(alloc), Vec::new(alloc)));
        }
        let Some(items) = word_items(alloc, word)? else {
            self.note_body(base, word);
            return Ok((Vec::new(alloc), Vec::new(alloc)));
        };
        if items.len() % 2 != 0 {
            self.note_number(base, at);
            return Ok((Vec::new(alloc), Vec::new(alloc)));
        }
        self.listed(alloc, place_in(base, word.inner.start), &items, levels - 1)
    }

    /// The patterns and bodies of the `switch` at the place.
    #[cycle(compiled)]
    fn cases(
        &mut self,
        alloc: Global,
        base: usize,
        at: usize,
        words: &[Word],
        levels: usize,
    ) -> M<(Vec<Node>, Vec<Node>)>
        requires bounded { levels ≤ 101 }
        ensures { IfOk result (λ r. cases_at (level levels) base at (map word_view words.now)
            self.old.findings ≡ ((nodes_view r.0.items, nodes_view r.1.items), self.new.findings)) }
    {
        match words {
            [word] => self.cases_inside(alloc, base, at, word, levels),
            _ => self.case_words(alloc, base, words, levels),
        }
    }

    /// A `switch`.
    #[cycle(compiled)]
    pub(crate) fn switch(
        &mut self,
        alloc: Global,
        base: usize,
        at: usize,
        words: &[Word],
        levels: usize,
    ) -> M<Node>
        requires bounded { levels ≤ 101 }
        ensures { IfOk result (λ v. switch_at (level levels) base at (map word_view words.now)
            self.old.findings ≡ (node_view v, self.new.findings)) }
    {
        let Some((front, cases)) = switch_form(words) else {
            return Ok(self.wrong_number(alloc, base, at));
        };
        let mut words = self.words(alloc, base, front, levels)?;
        let front = words.len();
        let (mut patterns, bodies) = self.cases(alloc, base, at, cases, levels)?;
        words.append(&mut patterns)?;
        Ok(Node::Switch {
            front,
            words,
            bodies,
        })
    }
}
