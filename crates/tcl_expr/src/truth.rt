// Truth values.

ghost use Rattle.std.specs.Prelude.{◌≡◌, IsTrue, ◌↔◌};
ghost use Rattle.px_bytes.specs.Letters.{lowered};
ghost use Rattle.tcl_expr.specs.Truth.{is_front, says_true, says_false, truth_word, truth};

use px_bytes::{read_whole, same_name};

/// The truth value that a text is: a whole number, which is true where it isn't 0, or in any case
/// of its letters `on`, `of`, `off`, or a front of `true`, `yes`, `false` or `no` with one letter
/// or more. It takes no memory.
pub fn read_truth(text: &[u8]) -> Option<bool>
    ensures { result ≡ truth text.now }
{
    match read_whole(text) {
        Some(number) => Some(number != 0),
        None => truth_word(text),
    }
}

fn truth_word(text: &[u8]) -> Option<bool>
    ensures { result ≡ truth_word (lowered text.now) }
{
    if says_true(text) {
        Some(true)
    } else if says_false(text) {
        Some(false)
    } else {
        None
    }
}

fn says_true(text: &[u8]) -> bool
    ensures { result ≡ says_true (lowered text.now) }
{
    is_front(b"true", text) || is_front(b"yes", text) || same_name(text, b"on")
}

fn says_false(text: &[u8]) -> bool
    ensures { result ≡ says_false (lowered text.now) }
{
    is_front(b"false", text)
        || is_front(b"no", text)
        || same_name(text, b"of")
        || same_name(text, b"off")
}

// Whether the text is one letter or more that the word begins with, in any case.
fn is_front(word: &[u8], text: &[u8]) -> bool
    ensures { result ≡ is_front (lowered word.now) (lowered text.now) }
{
    match word.get(..text.len()) {
        Some(front) => !text.is_empty() && same_name(text, front),
        None => false,
    }
}
