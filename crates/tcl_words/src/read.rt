// The readers of scripts, words and parts. They and those of what an opener encloses call one
// another, as deep as constructs may stand inside one another.

ghost use Rattle.std.specs.Prelude.{◌≡◌, ◌≤◌, ◌<◌, ◌+◌, length, IfOk, OnOk, false};
ghost use Rattle.tcl_words.specs.Places.{closes, ends_command, word_closer};
ghost use Rattle.tcl_words.specs.Reading.{read_variable, read_part, parts, trailing, read_word};
ghost use Rattle.tcl_words.specs.Reading.{words, commands, level};
ghost use Rattle.tcl_words.specs.Skips.{blanks_end};
ghost use Rattle.tcl_words.specs.View.{part_view, parts_view, word_view, words_view, script_view};

use crate::enclosed::copied;
use crate::finish::finished;
use crate::parse_fault::Fault;
use crate::places::{
    Closer, closes, ends_command, ends_script, opens_name, stands, starts_variable, word_closer,
};
use crate::progress::Progress;
use crate::script::{Form, Part, Script, ScriptCommand, Span, Word};
use crate::skips::{blanks_end, gap_end, name_end};
use px_bytes::{M, Text};
use std::alloc::Global;

impl Progress {
    /// Reads `$name` or `$name(index)`.
    #[cycle(script)]
    pub fn variable(&mut self, alloc: Global, text: &[u8], depth: usize) -> M<Part>
        requires { self.old.at < length text.now }
        ensures value { IfOk result
            (λ v. read_variable (level depth) text.now self.old ≡ (part_view v, self.new)) }
        ensures within { OnOk result (self.new.at ≤ length text.now) }
        ensures onward { OnOk result (self.old.at < self.new.at) }
    {
        let start = self.at;
        let end = name_end(text, start + 1);
        let name = copied(alloc, text, start + 1, end)?;
        self.at = end;
        if !stands(text, end, b'(') {
            let span = Span { start, end };
            return Ok(Part::Variable { span, name });
        }
        let index = self.index(alloc, text, depth)?;
        let span = Span {
            start,
            end: self.at,
        };
        Ok(Part::Element { span, name, index })
    }

    /// Reads one part.
    #[cycle(script)]
    fn part(&mut self, alloc: Global, text: &[u8], depth: usize, closer: Closer) -> M<Part>
        requires going { closes closer text.now self.old.at ≡ false }
        requires within { self.old.at < length text.now }
        ensures value { IfOk result (λ v. read_part (level depth) closer text.now self.old
            ≡ (part_view v, self.new)) }
        ensures within { OnOk result (self.new.at ≤ length text.now) }
        ensures onward { OnOk result (self.old.at < self.new.at) }
    {
        let start = self.at;
        if stands(text, start, b'[') {
            let script = self.bracket(alloc, text, depth)?;
            let span = Span {
                start,
                end: self.at,
            };
            return Ok(Part::Bracket { span, script });
        }
        if opens_name(text, start) {
            return self.braced_name(alloc, text, depth);
        }
        if starts_variable(text, start) {
            return self.variable(alloc, text, depth);
        }
        let bytes = self.run(alloc, text, closer)?;
        let span = Span {
            start,
            end: self.at,
        };
        Ok(Part::Plain {
            span,
            text: Text::from_vec(bytes),
        })
    }

    /// Reads the parts up to their end.
    #[cycle(script)]
    pub fn parts(
        &mut self,
        alloc: Global,
        text: &[u8],
        depth: usize,
        closer: Closer,
    ) -> M<Vec<Part>>
        requires { self.old.at ≤ length text.now }
        ensures value { IfOk result (λ v. parts (level depth) closer text.now self.old
            ≡ (parts_view v.items, self.new)) }
        ensures within { OnOk result (self.new.at ≤ length text.now) }
        ensures onward { OnOk result (self.old.at ≤ self.new.at) }
        ensures moves { OnOk result (closes closer text.now self.old.at ≡ false
            → self.old.at < self.new.at) }
    {
        let mut parts = Vec::new(alloc);
        while !closes(text, self.at, closer) {
            let part = self.part(alloc, text, depth, closer)?;
            parts.push(part)?;
        }
        Ok(parts)
    }

    /// Notes and reads what follows a closed quote or brace in its word.
    #[cycle(script)]
    fn trailing(&mut self, alloc: Global, text: &[u8], depth: usize, inside: bool) -> M<()>
        requires { self.old.at ≤ length text.now }
        ensures value { OnOk result (self.new ≡ trailing (level depth) inside text.now self.old) }
        ensures within { OnOk result (self.new.at ≤ length text.now) }
        ensures onward { OnOk result (self.old.at ≤ self.new.at) }
    {
        let closer = word_closer(inside);
        if closes(text, self.at, closer) {
            return Ok(());
        }
        self.note(Fault::ExtraAfter(self.at));
        let _ = self.parts(alloc, text, depth, closer)?;
        Ok(())
    }

    /// Reads one word.
    #[cycle(script)]
    fn word(&mut self, alloc: Global, text: &[u8], depth: usize, inside: bool) -> M<Word>
        requires going { closes (word_closer inside) text.now self.old.at ≡ false }
        requires within { self.old.at < length text.now }
        ensures value { IfOk result (λ w. read_word (level depth) inside text.now self.old
            ≡ (word_view w, self.new)) }
        ensures within { OnOk result (self.new.at ≤ length text.now) }
        ensures onward { OnOk result (self.old.at < self.new.at) }
    {
        if stands(text, self.at, b'"') {
            let word = self.quoted(alloc, text, depth)?;
            self.trailing(alloc, text, depth, inside)?;
            return Ok(word);
        }
        if stands(text, self.at, b'{') {
            let word = self.braced(alloc, text, depth)?;
            self.trailing(alloc, text, depth, inside)?;
            return Ok(word);
        }
        let start = self.at;
        let parts = self.parts(alloc, text, depth, word_closer(inside))?;
        let span = Span {
            start,
            end: self.at,
        };
        finished(alloc, text, span, Form::Bare, span, parts)
    }

    /// Reads the words up to the command's end, and leaves the blanks after them.
    #[cycle(script)]
    fn words(&mut self, alloc: Global, text: &[u8], depth: usize, inside: bool) -> M<Vec<Word>>
        requires { self.old.at ≤ length text.now }
        ensures value { IfOk result (λ v. words (level depth) inside text.now self.old
            ≡ (words_view v.items, self.new)) }
        ensures within { OnOk result (self.new.at ≤ length text.now) }
        ensures onward { OnOk result (self.old.at ≤ self.new.at) }
        ensures moves { OnOk result (ends_command inside text.now (blanks_end text.now self.old.at)
            ≡ false → self.old.at < self.new.at) }
    {
        let mut words = Vec::new(alloc);
        loop {
            let next = blanks_end(text, self.at);
            if ends_command(text, next, inside) {
                return Ok(words);
            }
            self.at = next;
            let word = self.word(alloc, text, depth, inside)?;
            words.push(word)?;
        }
    }

    /// Reads the commands up to the script's end, and leaves the gap after them.
    #[cycle(script)]
    pub fn script(&mut self, alloc: Global, text: &[u8], depth: usize, inside: bool) -> M<Script>
        requires { self.old.at ≤ length text.now }
        ensures value { IfOk result (λ v. commands (level depth) inside text.now self.old
            ≡ (script_view v, self.new)) }
        ensures within { OnOk result (self.new.at ≤ length text.now) }
        ensures onward { OnOk result (self.old.at ≤ self.new.at) }
    {
        let mut commands = Vec::new(alloc);
        loop {
            let next = gap_end(text, self.at);
            if ends_script(text, next, inside) {
                return Ok(Script { commands });
            }
            self.at = next;
            let words = self.words(alloc, text, depth, inside)?;
            let span = Span {
                start: next,
                end: self.at,
            };
            commands.push(ScriptCommand { span, words })?;
        }
    }
}
