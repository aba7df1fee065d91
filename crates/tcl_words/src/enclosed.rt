// The readers of what an opener encloses. All but those of braces go on with one opener less.

ghost use Rattle.std.specs.Prelude.{◌≡◌, ◌≤◌, ◌<◌, ◌+◌, length, IfOk, OnOk, true, slice_range};
ghost use Rattle.tcl_words.specs.Places.{opens_name};
ghost use Rattle.tcl_words.specs.Reading.{nothing, passed, read_name, read_braced, level};
ghost use Rattle.tcl_words.specs.View.{part_view, parts_view, word_view, script_view};

use crate::deep::{Inside, deep_end};
use crate::finish::finished;
use crate::parse_fault::Fault;
use crate::places::Closer;
use crate::progress::Progress;
use crate::script::{Form, Part, Script, Span, Word};
use crate::skips::{brace_end, gap_end};
use px_bytes::{M, Text};
use std::alloc::Global;

/// A copy of the bytes from one place up to another.
pub fn copied(alloc: Global, text: &[u8], start: usize, end: usize) -> M<Text>
    requires ordered { start ≤ end }
    requires within { end ≤ length text.now }
    ensures { IfOk result (λ t. t ≡ slice_range text.now start end) }
{
    Text::new(alloc, &text[start..end])
}

/// What stands for a quoted word that isn't read.
fn nothing(alloc: Global, at: usize) -> Word
    ensures { word_view result ≡ nothing at }
{
    let span = Span { start: at, end: at };
    Word {
        span,
        form: Form::Quoted,
        inner: span,
        raw: None,
        parts: Vec::new(alloc),
    }
}

impl Progress {
    /// Notes the opener that is one too many, by its own fault where it stays open, and goes past
    /// what it opens.
    #[tactic(auto, unfolding(crate::specs::Reading::passed))]
    fn pass(
        &mut self,
        alloc: Global,
        text: &[u8],
        start: usize,
        inside: Inside,
        unclosed: Fault,
    ) -> M<()>
        requires { start < length text.now }
        ensures value { OnOk result (self.new ≡ passed inside unclosed start text.now self.old) }
        ensures within { OnOk result (self.new.at ≤ length text.now) }
        ensures onward { OnOk result (start < self.new.at) }
    {
        match deep_end(alloc, text, inside, start + 1)? {
            Some(end) => {
                self.note(Fault::TooDeep(start));
                self.at = end;
            }
            None => {
                self.note(unclosed);
                self.at = text.len();
            }
        }
        Ok(())
    }

    /// Reads a braced word at its opener.
    #[tactic(auto, unfolding(crate::specs::Reading::read_braced))]
    pub fn braced(&mut self, alloc: Global, text: &[u8], depth: usize) -> M<Word>
        requires { self.old.at < length text.now }
        ensures value { IfOk result (λ w. read_braced depth text.now self.old
            ≡ (word_view w, self.new)) }
        ensures within { OnOk result (self.new.at ≤ length text.now) }
        ensures onward { OnOk result (self.old.at < self.new.at) }
    {
        let start = self.at;
        if depth == 0 {
            self.note(Fault::TooDeep(start));
        }
        self.at = start + 1;
        let text_inside = self.braces(alloc, text, depth.saturating_sub(1))?;
        let inner = Span {
            start: start + 1,
            end: self.at,
        };
        self.close(text, b'}', Fault::MissingBrace(start));
        let span = Span {
            start,
            end: self.at,
        };
        let mut parts = Vec::new(alloc);
        parts.push(Part::Plain {
            span: inner,
            text: Text::from_vec(text_inside),
        })?;
        finished(alloc, text, span, Form::Braced, inner, parts)
    }

    /// Reads a quoted word at its opener.
    #[cycle(script)]
    pub fn quoted(&mut self, alloc: Global, text: &[u8], depth: usize) -> M<Word>
        requires { self.old.at < length text.now }
        ensures value { IfOk result (λ w. (level depth).quoted text.now self.old
            ≡ (word_view w, self.new)) }
        ensures within { OnOk result (self.new.at ≤ length text.now) }
        ensures onward { OnOk result (self.old.at < self.new.at) }
    {
        let start = self.at;
        if depth == 0 {
            self.pass(
                alloc,
                text,
                start,
                Inside::Quote,
                Fault::MissingQuote(start),
            )?;
            return Ok(nothing(alloc, start));
        }
        self.at = start + 1;
        let parts = self.parts(alloc, text, depth - 1, Closer::Quote)?;
        let inner = Span {
            start: start + 1,
            end: self.at,
        };
        self.close(text, b'"', Fault::MissingQuote(start));
        let span = Span {
            start,
            end: self.at,
        };
        finished(alloc, text, span, Form::Quoted, inner, parts)
    }

    /// Reads a bracket at its opener.
    #[cycle(script)]
    pub fn bracket(&mut self, alloc: Global, text: &[u8], depth: usize) -> M<Script>
        requires { self.old.at < length text.now }
        ensures value { IfOk result (λ v. (level depth).bracket text.now self.old
            ≡ (script_view v, self.new)) }
        ensures within { OnOk result (self.new.at ≤ length text.now) }
        ensures onward { OnOk result (self.old.at < self.new.at) }
    {
        let start = self.at;
        if depth == 0 {
            self.pass(
                alloc,
                text,
                start,
                Inside::Gap,
                Fault::MissingBracket(start),
            )?;
            return Ok(Script {
                commands: Vec::new(alloc),
            });
        }
        self.at = start + 1;
        let script = self.script(alloc, text, depth - 1, true)?;
        self.at = gap_end(text, self.at);
        self.close(text, b']', Fault::MissingBracket(start));
        Ok(script)
    }

    /// Reads an index at its opener.
    #[cycle(script)]
    pub fn index(&mut self, alloc: Global, text: &[u8], depth: usize) -> M<Vec<Part>>
        requires { self.old.at < length text.now }
        ensures value { IfOk result
            (λ v. (level depth).index text.now self.old ≡ (parts_view v.items, self.new)) }
        ensures within { OnOk result (self.new.at ≤ length text.now) }
        ensures onward { OnOk result (self.old.at < self.new.at) }
    {
        let start = self.at;
        if depth == 0 {
            self.pass(
                alloc,
                text,
                start,
                Inside::Paren,
                Fault::MissingBracket(start),
            )?;
            return Ok(Vec::new(alloc));
        }
        self.at = start + 1;
        let parts = self.parts(alloc, text, depth - 1, Closer::Paren)?;
        self.close(text, b')', Fault::MissingBracket(start));
        Ok(parts)
    }

    /// Reads `${name}` at its dollar sign.
    #[tactic(auto, unfolding(crate::specs::Reading::read_name, crate::specs::Places::opens_name, crate::specs::Places::stands))]
    pub fn braced_name(&mut self, alloc: Global, text: &[u8], depth: usize) -> M<Part>
        requires { opens_name text.now self.old.at ≡ true }
        ensures value { IfOk result (λ v. read_name depth text.now self.old
            ≡ (part_view v, self.new)) }
        ensures within { OnOk result (self.new.at ≤ length text.now) }
        ensures onward { OnOk result (self.old.at < self.new.at) }
    {
        let start = self.at;
        if depth == 0 {
            self.note(Fault::TooDeep(start + 1));
        }
        let end = brace_end(text, start + 2);
        let name = copied(alloc, text, start + 2, end)?;
        self.at = end;
        self.close(text, b'}', Fault::MissingBrace(start + 1));
        let span = Span {
            start,
            end: self.at,
        };
        Ok(Part::Variable { span, name })
    }
}
