// Whether a command that evaluates all its words has as many as it may have.

ghost use Rattle.std.specs.Prelude.{◌≡◌, map};
ghost use Rattle.tcl_words.specs.View.{word_view};
ghost use Rattle.tcl_trees.specs.Fits.{at_least, between, fits, unset_names};

use crate::texts::is_text;
use tcl_trees::Verb;
use tcl_words::Word;

fn between(low: usize, high: usize, words: &[Word]) -> bool
    ensures { result ≡ between low high (map word_view words.now) }
{
    low <= words.len() && words.len() <= high
}

fn at_least(low: usize, words: &[Word]) -> bool
    ensures { result ≡ at_least low (map word_view words.now) }
{
    low <= words.len()
}

/// Whether an `unset` has a name.
fn unset_names(words: &[Word]) -> bool
    ensures { result ≡ unset_names (map word_view words.now) }
{
    match words {
        [_, word, names @ ..] => !is_text(word, b"-nocomplain") || at_least(1, names),
        _ => false,
    }
}

#[tactic(auto, unfolding(tcl_trees::specs::Fits::fits))]
pub(crate) fn fits(verb: Verb, words: &[Word]) -> bool
    ensures { result ≡ fits verb (map word_view words.now) }
{
    match verb {
        Verb::Named | Verb::Computed | Verb::Array | Verb::Info => true,
        Verb::Set | Verb::Incr => between(2, 3, words),
        Verb::Unset => unset_names(words),
        Verb::Append | Verb::Lappend | Verb::Call | Verb::ExprOfWords => at_least(2, words),
        Verb::Return => between(1, 2, words),
        Verb::Break | Verb::Continue => between(1, 1, words),
        Verb::Error => between(2, 2, words),
    }
}
