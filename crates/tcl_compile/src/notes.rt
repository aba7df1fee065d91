// What is noted of words and openers, and what stands for a tree that isn't made.

ghost use Rattle.std.specs.Prelude.{◌≡◌, OnOk, map};
ghost use Rattle.tcl_words.specs.View.{word_view};
ghost use Rattle.tcl_trees.specs.Compiled.{with_fault};
ghost use Rattle.tcl_trees.specs.Controls.{next_at};
ghost use Rattle.tcl_trees.specs.Flaws.{noted, place_in};
ghost use Rattle.tcl_trees.specs.Making.{flawed, nothing, one_too_many};
ghost use Rattle.tcl_trees.specs.TreeView.{node_view};
ghost use Rattle.tcl_trees.specs.Words.{is_named, named_at, with_first, word_place, wrong_number};
ghost use Rattle.tcl_trees.specs.declared.flaw.Flaw.TheVariants.{Arity, BadBody};

use crate::compiler::Compiler;
use crate::places::{moved_fault, place_in};
use px_bytes::M;
use std::alloc::Global;
use tcl_trees::{CommandName, Flaw, Node, Verb};
use tcl_words::{Fault, Word};

/// A script of no command.
pub(crate) fn nothing(alloc: Global) -> Node
    ensures { node_view result ≡ nothing }
{
    Node::Script(Vec::new(alloc))
}

/// Whether the first word names a command that isn't one of Tcl's own.
fn is_named(verb: Verb) -> bool
    ensures { result ≡ is_named verb }
{
    matches!(verb, Verb::Named)
}

impl Compiler {
    /// Notes the first word as the name of a command at the place, where nothing is substituted in
    /// it.
    fn note_first(&mut self, place: usize, words: &[Word]) -> M<()>
        ensures { OnOk result (self.new.findings
            ≡ with_first place (map word_view words.now) self.old.findings) }
    {
        if let Some(Word { raw: Some(raw), .. }) = words.first() {
            let name = raw.copy()?;
            self.findings.names.push(CommandName { place, name })?;
        }
        Ok(())
    }

    /// Notes the name of a command at the place that evaluates these words.
    pub(crate) fn note_name(&mut self, base: usize, at: usize, verb: Verb, words: &[Word]) -> M<()>
        ensures { OnOk result (self.new.findings ≡ named_at base at verb (map word_view words.now) self.old.findings) }
    {
        if is_named(verb) {
            return self.note_first(place_in(base, at), words);
        }
        Ok(())
    }

    /// Notes an opener at a place of the source that is one too many.
    pub(crate) fn note_deep(&mut self, place: usize)
        ensures { self.new.findings ≡ noted (one_too_many place) self.old.findings }
    {
        self.findings.note(Flaw::Parse(Fault::TooDeep(place)));
    }

    /// Notes a word that is neither a body nor a condition.
    pub(crate) fn note_body(&mut self, base: usize, word: &Word)
        ensures { self.new.findings
            ≡ noted (BadBody (place_in base (word_place (word_view word.now)))) self.old.findings }
    {
        self.findings
            .note(Flaw::BadBody(place_in(base, word.span.start)));
    }

    /// Notes that the command at the place has a wrong number of words.
    pub(crate) fn note_number(&mut self, base: usize, at: usize)
        ensures { self.new.findings ≡ noted (Arity (place_in base at)) self.old.findings }
    {
        self.findings.note(Flaw::Arity(place_in(base, at)));
    }

    /// Notes the fault of a text that begins at the place, if it has one.
    pub(crate) fn note_fault(&mut self, place: usize, fault: Option<Fault>)
        ensures { self.new.findings ≡ with_fault place fault self.old.findings }
    {
        if let Some(fault) = fault {
            self.findings.note(Flaw::Parse(moved_fault(place, fault)));
        }
    }

    /// What stands for what an opener encloses that is one too many.
    pub(crate) fn too_deep(&mut self, alloc: Global, place: usize) -> Node
        ensures { flawed (one_too_many place) self.old.findings ≡ (node_view result, self.new.findings) }
    {
        self.note_deep(place);
        nothing(alloc)
    }

    /// What stands for a word that is neither a body nor a condition.
    pub(crate) fn no_body(&mut self, alloc: Global, base: usize, word: &Word) -> Node
        ensures { flawed (BadBody (place_in base (word_place (word_view word.now)))) self.old.findings
            ≡ (node_view result, self.new.findings) }
    {
        self.note_body(base, word);
        nothing(alloc)
    }

    /// What stands for a command at the place that has a wrong number of words.
    pub(crate) fn wrong_number(&mut self, alloc: Global, base: usize, at: usize) -> Node
        ensures { wrong_number base at self.old.findings ≡ (node_view result, self.new.findings) }
    {
        self.note_number(base, at);
        nothing(alloc)
    }

    /// What a `-` at the place stands for.
    pub(crate) fn next_body(&mut self, alloc: Global, place: usize, last: bool) -> Node
        ensures { next_at place last self.old.findings ≡ (node_view result, self.new.findings) }
    {
        if last {
            self.findings.note(Flaw::BadBody(place));
            return nothing(alloc);
        }
        Node::NextBody
    }
}
