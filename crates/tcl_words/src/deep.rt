// The end of a construct that stands too deep to be read.

ghost use Rattle.std.specs.Prelude.{◌≡◌, ◌≤◌, ◌<◌, ◌+◌, length, IfOk, IfSome};
ghost use Rattle.tcl_words.specs.Deep.{past_brace, turn_at_variable, turn_at_dollar, turn_in_word};
ghost use Rattle.tcl_words.specs.Deep.{turn_bare, turn_between, turn_in_braces, turn, deep_end};

use crate::escapes::unit;
use crate::places::{after_blank, is_blank, opens_name, separates, stands, starts_variable};
use crate::skips::{brace_end, comment_end, name_end};
use px_bytes::M;
use std::alloc::Global;

/// What a place is inside of.
#[derive(Clone, Copy)]
pub enum Inside {
    /// A bracket, where a command may begin.
    Gap,
    /// A bracket, where a word may begin.
    Blank,
    /// A word of a bracket, without quotes.
    Bare,
    /// A quoted word.
    Quote,
    /// A brace.
    Brace,
    /// An index.
    Paren,
}

/// What a byte, a variable or an escape does.
#[derive(Clone, Copy)]
pub enum Effect {
    On(Inside),
    /// The second is opened, and what comes after it is inside the first.
    Opens(Inside, Inside),
    Ends,
}

/// The place after the closing brace at the place, or the text's end.
#[tactic(auto, unfolding(crate::specs::Deep::past_brace))]
fn past_brace(text: &[u8], at: usize) -> usize
    requires { at ≤ length text.now }
    ensures value { result ≡ past_brace text.now at }
    ensures within { result ≤ length text.now }
    ensures onward { at ≤ result }
{
    if at < text.len() { at + 1 } else { at }
}

#[tactic(auto, unfolding(crate::specs::Deep::turn_at_variable, crate::specs::Places::stands))]
fn turn_at_variable(text: &[u8], inside: Inside, end: usize) -> (Effect, usize)
    requires { end ≤ length text.now }
    ensures value { result ≡ turn_at_variable text.now inside end }
    ensures within { result.1 ≤ length text.now }
    ensures onward { end ≤ result.1 }
{
    if stands(text, end, b'(') {
        (Effect::Opens(inside, Inside::Paren), end + 1)
    } else {
        (Effect::On(inside), end)
    }
}

#[tactic(auto, unfolding(crate::specs::Deep::turn_at_dollar, crate::specs::Places::opens_name, crate::specs::Places::stands))]
fn turn_at_dollar(text: &[u8], inside: Inside, at: usize) -> (Effect, usize)
    requires { at < length text.now }
    ensures value { result ≡ turn_at_dollar text.now inside at }
    ensures within { result.1 ≤ length text.now }
    ensures onward { at < result.1 }
{
    if opens_name(text, at) {
        let end = brace_end(text, at + 2);
        (Effect::On(inside), past_brace(text, end))
    } else {
        turn_at_variable(text, inside, name_end(text, at + 1))
    }
}

#[tactic(auto, unfolding(crate::specs::Deep::turn_in_word))]
fn turn_in_word(text: &[u8], inside: Inside, at: usize) -> (Effect, usize)
    requires { at < length text.now }
    ensures value { result ≡ turn_in_word text.now inside at }
    ensures within { result.1 ≤ length text.now }
    ensures onward { at < result.1 }
{
    if stands(text, at, b'[') {
        (Effect::Opens(inside, Inside::Gap), at + 1)
    } else if starts_variable(text, at) {
        turn_at_dollar(text, inside, at)
    } else {
        let (_, end) = unit(text, at);
        (Effect::On(inside), end)
    }
}

#[tactic(auto, unfolding(crate::specs::Deep::turn_bare))]
fn turn_bare(text: &[u8], blank: Inside, at: usize) -> (Effect, usize)
    requires { at < length text.now }
    ensures value { result ≡ turn_bare text.now blank at }
    ensures within { result.1 ≤ length text.now }
    ensures onward { at < result.1 }
{
    if stands(text, at, b']') {
        (Effect::Ends, at + 1)
    } else if is_blank(text, at) {
        (Effect::On(blank), after_blank(text, at))
    } else if separates(text, at) {
        (Effect::On(Inside::Gap), at + 1)
    } else {
        turn_in_word(text, Inside::Bare, at)
    }
}

#[tactic(auto, unfolding(crate::specs::Deep::turn_between))]
fn turn_between(text: &[u8], blank: Inside, at: usize) -> (Effect, usize)
    requires { at < length text.now }
    ensures value { result ≡ turn_between text.now blank at }
    ensures within { result.1 ≤ length text.now }
    ensures onward { at < result.1 }
{
    if stands(text, at, b'"') {
        (Effect::Opens(Inside::Bare, Inside::Quote), at + 1)
    } else if stands(text, at, b'{') {
        (Effect::Opens(Inside::Bare, Inside::Brace), at + 1)
    } else {
        turn_bare(text, blank, at)
    }
}

#[tactic(auto, unfolding(crate::specs::Deep::turn_in_braces))]
fn turn_in_braces(text: &[u8], at: usize) -> (Effect, usize)
    requires { at < length text.now }
    ensures value { result ≡ turn_in_braces text.now at }
    ensures within { result.1 ≤ length text.now }
    ensures onward { at < result.1 }
{
    if stands(text, at, b'}') {
        (Effect::Ends, at + 1)
    } else if stands(text, at, b'{') {
        (Effect::Opens(Inside::Brace, Inside::Brace), at + 1)
    } else {
        let (_, end) = unit(text, at);
        (Effect::On(Inside::Brace), end)
    }
}

/// What stands at the place, and the place after it.
#[tactic(auto, unfolding(crate::specs::Deep::turn))]
fn turn(text: &[u8], inside: Inside, at: usize) -> (Effect, usize)
    requires { at < length text.now }
    ensures value { result ≡ turn text.now inside at }
    ensures within { result.1 ≤ length text.now }
    ensures onward { at < result.1 }
{
    match inside {
        Inside::Gap => {
            if stands(text, at, b'#') {
                (Effect::On(Inside::Gap), comment_end(text, at + 1))
            } else {
                turn_between(text, Inside::Gap, at)
            }
        }
        Inside::Blank => turn_between(text, Inside::Blank, at),
        Inside::Bare => turn_bare(text, Inside::Blank, at),
        Inside::Brace => turn_in_braces(text, at),
        Inside::Paren => {
            if stands(text, at, b')') {
                (Effect::Ends, at + 1)
            } else {
                turn_in_word(text, Inside::Paren, at)
            }
        }
        Inside::Quote => {
            if stands(text, at, b'"') {
                (Effect::Ends, at + 1)
            } else {
                turn_in_word(text, Inside::Quote, at)
            }
        }
    }
}

/// The place where what is open has ended, and none where the text ends before that. What is open
/// is kept in a list, so that no depth is too great.
pub fn deep_end(alloc: Global, text: &[u8], first: Inside, start: usize) -> M<Option<usize>>
    requires { start ≤ length text.now }
    ensures value { IfOk result (λ end. end ≡ deep_end text.now first start) }
    ensures within { IfOk result (λ end. IfSome end (λ at. at ≤ length text.now)) }
    ensures onward { IfOk result (λ end. IfSome end (λ at. start ≤ at)) }
{
    let mut outer = Vec::new(alloc);
    let mut inside = first;
    let mut at = start;
    while at < text.len() {
        let (done, next) = turn(text, inside, at);
        at = next;
        match done {
            Effect::On(now) => inside = now,
            Effect::Opens(under, now) => {
                outer.push(under)?;
                inside = now;
            }
            Effect::Ends => match outer.pop() {
                None => return Ok(Some(at)),
                Some(now) => inside = now,
            },
        }
    }
    Ok(None)
}
