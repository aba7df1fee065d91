// What the words of a `foreach`, a `catch` and a `switch` are.

ghost use Rattle.std.specs.Prelude.{◌≡◌, ◌<◌, ◌≤◌, ◌∷◌, MatchOption, length, map, option_map};
ghost use Rattle.tcl_words.specs.View.{word_view};
ghost use Rattle.tcl_trees.specs.Forms.{are_cases, catch_form, foreach_form, last_apart};
ghost use Rattle.tcl_trees.specs.Forms.{option_count, switch_form};

use crate::texts::{begins_with, is_braced, is_text};
use tcl_words::Word;

/// The first two items, and those behind them.
pub(crate) fn first_two<T>(items: &[T]) -> Option<(&T, &T, &[T])>
    ensures { MatchOption result (length items.now < 2)
        (λ r. items.now ≡ r.0.now ∷ (r.1.now ∷ r.2.now)) }
{
    let (first, items) = items.split_first()?;
    let (second, items) = items.split_first()?;
    Some((first, second, items))
}

/// All words but the last, and the last.
fn last_apart(words: &[Word]) -> Option<(&[Word], &Word)>
    ensures { option_map (λ r. (map word_view r.0.now, word_view r.1.now)) result
        ≡ last_apart (map word_view words.now) }
{
    let Some((last, front)) = words.split_last() else {
        return None;
    };
    Some((front, last))
}

/// The names and lists of a `foreach` in turn, and its body.
pub(crate) fn foreach_form(words: &[Word]) -> Option<(&[Word], &Word)>
    ensures { option_map (λ r. (map word_view r.0.now, word_view r.1.now)) result
        ≡ foreach_form (map word_view words.now) }
{
    let (_, words) = words.split_first()?;
    let (names, body) = last_apart(words)?;
    let paired = names.len() >= 2 && names.len() % 2 == 0;
    paired.then_some((names, body))
}

/// The body of a `catch`, and perhaps the name of a variable.
pub(crate) fn catch_form(words: &[Word]) -> Option<(&Word, Option<&Word>)>
    ensures { option_map (λ r. (word_view r.0.now, option_map (λ w. word_view w.now) r.1)) result
        ≡ catch_form (map word_view words.now) }
{
    match words {
        [_, body] => Some((body, None)),
        [_, body, name] => Some((body, Some(name))),
        _ => None,
    }
}

/// How many option words of a `switch` stand here.
fn option_count(words: &[Word]) -> usize
    ensures value { result ≡ option_count (map word_view words.now) }
    ensures within { result ≤ length words.now }
{
    for (at, word) in words.iter().enumerate() {
        if is_text(word, b"--") {
            return at + 1;
        }
        if !begins_with(word, b'-') {
            return at;
        }
    }
    words.len()
}

/// Whether these are patterns and bodies of a `switch`, or may hold them.
fn are_cases(words: &[Word]) -> bool
    ensures { result ≡ are_cases (map word_view words.now) }
{
    match words {
        [] => false,
        [word] => is_braced(word),
        _ => words.len() % 2 == 0,
    }
}

/// The options and the text of a `switch`, and what stands behind them.
pub(crate) fn switch_form(words: &[Word]) -> Option<(&[Word], &[Word])>
    ensures { option_map (λ r. (map word_view r.0.now, map word_view r.1.now)) result
        ≡ switch_form (map word_view words.now) }
{
    let (_, words) = words.split_first()?;
    let count = option_count(words) + 1;
    if count > words.len() {
        return None;
    }
    let (front, cases) = words.split_at(count);
    are_cases(cases).then_some((front, cases))
}
