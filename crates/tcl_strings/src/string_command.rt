// The command `string`.

ghost use Rattle.px_bytes.specs.Gives.{Gives};
ghost use Rattle.tcl_strings.specs.StringCommand.{form_value, string_value};

use crate::form::{Form, form_named};
use crate::form_words::{
    compare_words, equal_words, first_words, index_words, last_words, length_words, lower_words,
    map_words, match_words, range_words, repeat_words, trim_left_words, trim_right_words,
    trim_words, upper_words,
};
use px_bytes::{Raise, Text};
use std::alloc::Global;

/// The value of `string` with these words, of which the first names the form, or its fault. A value
/// is at most 1,048,576 bytes long where no word is longer.
pub fn string(alloc: Global, arguments: &[Text]) -> Result<Text, Raise>
    ensures { Gives result (string_value arguments.now) }
{
    let [name, words @ ..] = arguments else {
        return Raise::arity(alloc, b"string");
    };
    match form_named(name.as_bytes()) {
        Some(form) => form_of(alloc, form, words),
        None => Raise::syntax(alloc, b"string"),
    }
}

fn form_of(alloc: Global, form: Form, words: &[Text]) -> Result<Text, Raise>
    ensures { Gives result (form_value form words.now) }
{
    match form {
        Form::Length => length_words(alloc, words),
        Form::Index => index_words(alloc, words),
        Form::Range => range_words(alloc, words),
        Form::ToLower => lower_words(alloc, words),
        Form::ToUpper => upper_words(alloc, words),
        Form::Trim => trim_words(alloc, words),
        Form::TrimLeft => trim_left_words(alloc, words),
        Form::TrimRight => trim_right_words(alloc, words),
        Form::First => first_words(alloc, words),
        Form::Last => last_words(alloc, words),
        Form::Match => match_words(alloc, words),
        Form::Equal => equal_words(alloc, words),
        Form::Compare => compare_words(alloc, words),
        Form::Repeat => repeat_words(alloc, words),
        Form::Map => map_words(alloc, words),
    }
}
