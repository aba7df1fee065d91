// The ends of runs of bytes.

ghost use Rattle.std.specs.Prelude.{◌≡◌, ◌≤◌, ◌<◌, ◌+◌, length, false};
ghost use Rattle.tcl_words.specs.Places.{is_blank, in_gap};
ghost use Rattle.tcl_words.specs.Skips.{spaces_end, name_end, brace_end, blanks_end, comment_end};
ghost use Rattle.tcl_words.specs.Skips.{after_gap_part, gap_end};

use crate::places::{
    after_blank, after_comment_byte, after_name, in_comment, in_gap, in_name, is_blank, is_space,
    names, separates,
};

/// The place after the blanks and tabs from the place on.
pub fn spaces_end(text: &[u8], start: usize) -> usize
    requires { start ≤ length text.now }
    ensures value { result ≡ spaces_end text.now start }
    ensures within { result ≤ length text.now }
    ensures onward { start ≤ result }
{
    let mut at = start;
    while is_space(text, at) {
        at += 1;
    }
    at
}

/// The place after the name from the place on.
pub fn name_end(text: &[u8], start: usize) -> usize
    requires { start ≤ length text.now }
    ensures value { result ≡ name_end text.now start }
    ensures within { result ≤ length text.now }
    ensures onward { start ≤ result }
{
    let mut at = start;
    while names(text, at) {
        at = after_name(text, at);
    }
    at
}

/// The place of the next closing brace, or the text's end.
pub fn brace_end(text: &[u8], start: usize) -> usize
    requires { start ≤ length text.now }
    ensures value { result ≡ brace_end text.now start }
    ensures within { result ≤ length text.now }
    ensures onward { start ≤ result }
{
    let mut at = start;
    while in_name(text, at) {
        at += 1;
    }
    at
}

/// The place after the blanks, tabs and backslash-newlines from the place on.
pub fn blanks_end(text: &[u8], start: usize) -> usize
    requires { start ≤ length text.now }
    ensures value { result ≡ blanks_end text.now start }
    ensures within { result ≤ length text.now }
    ensures onward { start ≤ result }
    ensures stops { is_blank text.now result ≡ false }
{
    let mut at = start;
    while is_blank(text, at) {
        at = after_blank(text, at);
    }
    at
}

/// The place of the newline that ends the comment, or the text's end.
pub fn comment_end(text: &[u8], start: usize) -> usize
    requires { start ≤ length text.now }
    ensures value { result ≡ comment_end text.now start }
    ensures within { result ≤ length text.now }
    ensures onward { start ≤ result }
{
    let mut at = start;
    while in_comment(text, at) {
        at = after_comment_byte(text, at);
    }
    at
}

/// The place after the blank or the comment.
#[tactic(auto, unfolding(crate::specs::Skips::after_gap_part, crate::specs::Places::in_gap))]
pub fn after_gap_part(text: &[u8], at: usize) -> usize
    requires { at < length text.now }
    ensures value { result ≡ after_gap_part text.now at }
    ensures within { result ≤ length text.now }
    ensures onward { at < result }
{
    if separates(text, at) {
        after_blank(text, at)
    } else {
        comment_end(text, at + 1)
    }
}

/// The place after what parts two commands, comments with it.
pub fn gap_end(text: &[u8], start: usize) -> usize
    requires { start ≤ length text.now }
    ensures value { result ≡ gap_end text.now start }
    ensures within { result ≤ length text.now }
    ensures onward { start ≤ result }
    ensures stops { in_gap text.now result ≡ false }
{
    let mut at = start;
    while in_gap(text, at) {
        at = after_gap_part(text, at);
    }
    at
}
