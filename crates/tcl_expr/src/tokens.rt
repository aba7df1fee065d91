// The tokens of expressions.

ghost use Rattle.std.specs.Prelude.{◌≡◌, ◌≤◌, ◌<◌, ◌+◌, ◌^◌, length, IfSome, IsTrue, map, true};
ghost use Rattle.std.specs.List.{All};
ghost use Rattle.tcl_expr.specs.Tokens.{digit_stands, digits_end, first_word, meant, number_end};
ghost use Rattle.tcl_expr.specs.Tokens.{reads_word, white_end, white_stands};

use px_bytes::is_space;
use tcl_words::{after_blank, skips_newline, stands};

/// Whether a white byte or a backslash-newline stands at the place.
#[tactic(auto, unfolding(crate::specs::Tokens::white_stands))]
fn white_stands(text: &[u8], at: usize) -> bool
    requires { at ≤ length text.now }
    ensures { result ≡ white_stands text.now at }
{
    at < text.len() && is_space(text[at]) || skips_newline(text, at)
}

/// The place after the white space from the place on.
pub(crate) fn white_end(text: &[u8], start: usize) -> usize
    requires { start ≤ length text.now }
    ensures value { result ≡ white_end text.now start }
    ensures within { result ≤ length text.now }
    ensures onward { start ≤ result }
{
    let mut at = start;
    while white_stands(text, at) {
        at = after_blank(text, at);
    }
    at
}

/// Whether the word stands at the place.
#[tactic(auto, unfolding(crate::specs::Tokens::reads_word))]
pub(crate) fn reads_word(text: &[u8], at: usize, word: &[u8]) -> bool
    requires { at ≤ length text.now }
    ensures value { result ≡ reads_word text.now at word.now }
    ensures within { IsTrue result → at + length word.now ≤ length text.now }
{
    text[at..].starts_with(word)
}

/// What a word means, if anything, and the place after it.
fn meant<T: Copy>(meaning: Option<T>, end: usize) -> Option<(T, usize)>
    ensures value { result ≡ meant meaning end }
    ensures end { IfSome result (λ found. found.1 ≡ end) }
{
    match meaning {
        Some(meaning) => Some((meaning, end)),
        None => None,
    }
}

/// Of words and what they mean, the first that stands at the place, and the place after it. One
/// that means nothing keeps the words after it from standing there.
pub(crate) fn first_word<T: Copy>(
    words: &[(&[u8], Option<T>)],
    text: &[u8],
    at: usize,
) -> Option<(T, usize)>
    requires within { at ≤ length text.now }
    requires words { All (λ w. 0 < length w.0.now) words.now }
    ensures value { result ≡ first_word (map (λ w. (w.0.now, w.1)) words.now) text.now at }
    ensures within { IfSome result (λ found. found.1 ≤ length text.now) }
    ensures onward { IfSome result (λ found. at < found.1) }
{
    for (word, meaning) in words {
        if reads_word(text, at, word) {
            return meant(*meaning, at + word.len());
        }
    }
    None
}

/// Whether a digit of the radix stands at the place.
#[tactic(auto, unfolding(crate::specs::Tokens::digit_stands))]
pub(crate) fn digit_stands(radix: u32, text: &[u8], at: usize) -> bool
    requires radix { 2 ≤ radix }
    requires letters { radix ≤ 36 }
    ensures { result ≡ digit_stands radix text.now at }
{
    at < text.len() && char::from(text[at]).is_digit(radix)
}

/// The place after the digits from the place on.
fn digits_end(radix: u32, text: &[u8], start: usize) -> usize
    requires radix { 2 ≤ radix }
    requires letters { radix ≤ 36 }
    requires within { start ≤ length text.now }
    ensures value { result ≡ digits_end radix text.now start }
    ensures within { result ≤ length text.now }
    ensures onward { start ≤ result }
    ensures moves { digit_stands radix text.now start ≡ true → start < result }
{
    let mut at = start;
    while digit_stands(radix, text, at) {
        at += 1;
    }
    at
}

/// The place after the number whose first digit stands at the place.
#[tactic(auto, using(crate::proofs::Places::zero_is_octal), unfolding(crate::specs::Tokens::number_end))]
pub(crate) fn number_end(text: &[u8], at: usize) -> usize
    requires { at ≤ length text.now }
    ensures value { result ≡ number_end text.now at }
    ensures within { result ≤ length text.now }
    ensures moves { digit_stands 10 text.now at ≡ true → at < result }
{
    if reads_word(text, at, b"0x") && digit_stands(16, text, at + 2) {
        digits_end(16, text, at + 2)
    } else if stands(text, at, b'0') {
        digits_end(8, text, at)
    } else {
        digits_end(10, text, at)
    }
}
