// Runs of plain bytes, and what stands between braces.

ghost use Rattle.std.specs.Prelude.{◌≡◌, ◌≤◌, ◌<◌, ◌+◌, ◌++◌, ◌-◌, length, IfOk, OnOk, false};
ghost use Rattle.tcl_words.specs.Places.{ends_run};
ghost use Rattle.tcl_words.specs.Skips.{turns};
ghost use Rattle.tcl_words.specs.Values.{next_byte, run, brace_bytes, brace_unit_end, inner_after};
ghost use Rattle.tcl_words.specs.Values.{deepened, ends_braces, braces};

use crate::escapes::unit;
use crate::parse_fault::Fault;
use crate::places::{Closer, ends_run, stands};
use crate::progress::Progress;
use crate::skips::spaces_end;
use px_bytes::M;
use std::alloc::Global;

/// How many braces are open inside the word's own, after the byte.
#[tactic(auto, unfolding(crate::specs::Values::inner_after, crate::specs::Places::stands))]
fn inner_after(text: &[u8], at: usize, inner: usize) -> usize
    requires within { at < length text.now }
    requires few { inner ≤ at }
    ensures value { result ≡ inner_after text.now at inner }
    ensures few { result ≤ inner + 1 }
{
    if stands(text, at, b'{') {
        inner + 1
    } else if stands(text, at, b'}') && inner > 0 {
        inner - 1
    } else {
        inner
    }
}

/// Whether the braces end at the place.
#[tactic(auto, unfolding(crate::specs::Values::ends_braces))]
fn ends_braces(text: &[u8], inner: usize, at: usize) -> bool
    ensures { result ≡ ends_braces text.now inner at }
{
    at >= text.len() || stands(text, at, b'}') && inner == 0
}

/// Adds what stands at the place in braces: a byte, or a backslash and the byte after it, or the
/// blank that a backslash-newline is. Gives the place after it.
#[tactic(auto, unfolding(crate::specs::Values::brace_bytes, crate::specs::Values::brace_unit_end, crate::specs::Places::stands))]
fn push_brace_unit(text: &[u8], at: usize, bytes: &mut Vec<u8>) -> M<usize>
    requires { at < length text.now }
    ensures bytes { OnOk result (bytes.new.items ≡ bytes.old.items ++ brace_bytes text.now at) }
    ensures end { IfOk result (λ end. end ≡ brace_unit_end text.now at) }
    ensures within { IfOk result (λ end. end ≤ length text.now) }
    ensures onward { IfOk result (λ end. at < end) }
{
    if !stands(text, at, b'\\') {
        bytes.push(text[at])?;
        return Ok(at + 1);
    }
    if stands(text, at + 1, b'\n') {
        bytes.push(b' ')?;
        return Ok(spaces_end(text, at + 2));
    }
    bytes.push(b'\\')?;
    if at + 1 < text.len() {
        bytes.push(text[at + 1])?;
        Ok(at + 2)
    } else {
        Ok(at + 1)
    }
}

impl Progress {
    /// Reads one byte of a value.
    #[tactic(auto, unfolding(crate::specs::Values::next_byte))]
    fn next_byte(&mut self, text: &[u8]) -> u8
        requires { self.old.at < length text.now }
        ensures value { next_byte text.now self.old ≡ (result, self.new) }
        ensures within { self.new.at ≤ length text.now }
        ensures onward { self.old.at < self.new.at }
    {
        let (number, end) = unit(text, self.at);
        if number > 255 {
            self.note(Fault::BadEscape(self.at));
        }
        self.at = end;
        (number % 256) as u8
    }

    /// Reads the plain bytes up to the next bracket, variable or end.
    pub fn run(&mut self, alloc: Global, text: &[u8], closer: Closer) -> M<Vec<u8>>
        requires { self.old.at ≤ length text.now }
        ensures value { IfOk result (λ v. run closer text.now self.old
            ≡ (v.items, self.new)) }
        ensures within { OnOk result (self.new.at ≤ length text.now) }
        ensures onward { OnOk result (self.old.at ≤ self.new.at) }
        ensures moves { OnOk result (ends_run closer text.now self.old.at ≡ false
            → self.old.at < self.new.at) }
    {
        let mut bytes = Vec::new(alloc);
        while !ends_run(text, self.at, closer) {
            let byte = self.next_byte(text);
            bytes.push(byte)?;
        }
        Ok(bytes)
    }

    /// Notes a brace for which there is no room.
    #[tactic(auto, unfolding(crate::specs::Values::deepened))]
    fn deepen(&mut self, text: &[u8], room: usize, inner: usize)
        ensures value { self.new ≡ deepened room inner text.now self.old }
        ensures stays { self.new.at ≡ self.old.at }
    {
        if stands(text, self.at, b'{') && room <= inner {
            self.note(Fault::TooDeep(self.at));
        }
    }

    /// Reads the bytes up to the matching brace.
    pub fn braces(&mut self, alloc: Global, text: &[u8], room: usize) -> M<Vec<u8>>
        requires { self.old.at ≤ length text.now }
        ensures value { IfOk result
            (λ v. braces room text.now (turns text.now) 0 self.old ≡ (v.items, self.new)) }
        ensures within { OnOk result (self.new.at ≤ length text.now) }
        ensures onward { OnOk result (self.old.at ≤ self.new.at) }
    {
        let mut bytes = Vec::new(alloc);
        let mut inner = 0;
        while !ends_braces(text, inner, self.at) {
            let next = inner_after(text, self.at, inner);
            self.deepen(text, room, inner);
            self.at = push_brace_unit(text, self.at, &mut bytes)?;
            inner = next;
        }
        Ok(bytes)
    }
}
