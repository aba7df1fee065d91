// The forms of `string`, each by its words.

ghost use Rattle.px_bytes.specs.Gives.{Gives};
ghost use Rattle.tcl_strings.specs.StringCommand.{form_value};

use crate::answer::{number, test};
use crate::case::upper;
use crate::form::Form;
use crate::mapping::map;
use crate::order::compare;
use crate::part::{index, range};
use crate::repetition::repeat;
use crate::search::{first, last};
use crate::trim::{trim, trim_left, trim_right};
use px_bytes::{Raise, Text, glob, lower};
use std::alloc::Global;

// White space, which is taken off where no bytes are given.
const WHITE: &[u8] = b" \t\n\x0b\x0c\r";

pub(crate) fn length_words(alloc: Global, words: &[Text]) -> Result<Text, Raise>
    ensures { Gives result (form_value Form.Length words.now) }
{
    match words {
        [text] => number(alloc, text.len()),
        _ => Raise::arity(alloc, b"string"),
    }
}

pub(crate) fn index_words(alloc: Global, words: &[Text]) -> Result<Text, Raise>
    ensures { Gives result (form_value Form.Index words.now) }
{
    match words {
        [text, at] => index(alloc, text.as_bytes(), at.as_bytes()),
        _ => Raise::arity(alloc, b"string"),
    }
}

pub(crate) fn range_words(alloc: Global, words: &[Text]) -> Result<Text, Raise>
    ensures { Gives result (form_value Form.Range words.now) }
{
    match words {
        [text, first, last] => range(alloc, text.as_bytes(), first.as_bytes(), last.as_bytes()),
        _ => Raise::arity(alloc, b"string"),
    }
}

pub(crate) fn lower_words(alloc: Global, words: &[Text]) -> Result<Text, Raise>
    ensures { Gives result (form_value Form.ToLower words.now) }
{
    match words {
        [text] => Ok(lower(alloc, text.as_bytes())?),
        _ => Raise::arity(alloc, b"string"),
    }
}

pub(crate) fn upper_words(alloc: Global, words: &[Text]) -> Result<Text, Raise>
    ensures { Gives result (form_value Form.ToUpper words.now) }
{
    match words {
        [text] => Ok(upper(alloc, text.as_bytes())?),
        _ => Raise::arity(alloc, b"string"),
    }
}

pub(crate) fn trim_words(alloc: Global, words: &[Text]) -> Result<Text, Raise>
    ensures { Gives result (form_value Form.Trim words.now) }
{
    match words {
        [text] => Ok(trim(alloc, text.as_bytes(), WHITE)?),
        [text, bytes] => Ok(trim(alloc, text.as_bytes(), bytes.as_bytes())?),
        _ => Raise::arity(alloc, b"string"),
    }
}

pub(crate) fn trim_left_words(alloc: Global, words: &[Text]) -> Result<Text, Raise>
    ensures { Gives result (form_value Form.TrimLeft words.now) }
{
    match words {
        [text] => Ok(trim_left(alloc, text.as_bytes(), WHITE)?),
        [text, bytes] => Ok(trim_left(alloc, text.as_bytes(), bytes.as_bytes())?),
        _ => Raise::arity(alloc, b"string"),
    }
}

pub(crate) fn trim_right_words(alloc: Global, words: &[Text]) -> Result<Text, Raise>
    ensures { Gives result (form_value Form.TrimRight words.now) }
{
    match words {
        [text] => Ok(trim_right(alloc, text.as_bytes(), WHITE)?),
        [text, bytes] => Ok(trim_right(alloc, text.as_bytes(), bytes.as_bytes())?),
        _ => Raise::arity(alloc, b"string"),
    }
}

pub(crate) fn first_words(alloc: Global, words: &[Text]) -> Result<Text, Raise>
    ensures { Gives result (form_value Form.First words.now) }
{
    match words {
        [piece, text] => first(alloc, piece.as_bytes(), text.as_bytes()),
        _ => Raise::arity(alloc, b"string"),
    }
}

pub(crate) fn last_words(alloc: Global, words: &[Text]) -> Result<Text, Raise>
    ensures { Gives result (form_value Form.Last words.now) }
{
    match words {
        [piece, text] => last(alloc, piece.as_bytes(), text.as_bytes()),
        _ => Raise::arity(alloc, b"string"),
    }
}

pub(crate) fn match_words(alloc: Global, words: &[Text]) -> Result<Text, Raise>
    ensures { Gives result (form_value Form.Match words.now) }
{
    match words {
        [pattern, text] => test(alloc, glob(pattern.as_bytes(), text.as_bytes())),
        _ => Raise::arity(alloc, b"string"),
    }
}

pub(crate) fn equal_words(alloc: Global, words: &[Text]) -> Result<Text, Raise>
    ensures { Gives result (form_value Form.Equal words.now) }
{
    match words {
        [a, b] => test(alloc, a.as_bytes() == b.as_bytes()),
        _ => Raise::arity(alloc, b"string"),
    }
}

pub(crate) fn compare_words(alloc: Global, words: &[Text]) -> Result<Text, Raise>
    ensures { Gives result (form_value Form.Compare words.now) }
{
    match words {
        [a, b] => compare(alloc, a.as_bytes(), b.as_bytes()),
        _ => Raise::arity(alloc, b"string"),
    }
}

pub(crate) fn repeat_words(alloc: Global, words: &[Text]) -> Result<Text, Raise>
    ensures { Gives result (form_value Form.Repeat words.now) }
{
    match words {
        [text, count] => repeat(alloc, text.as_bytes(), count.as_bytes()),
        _ => Raise::arity(alloc, b"string"),
    }
}

pub(crate) fn map_words(alloc: Global, words: &[Text]) -> Result<Text, Raise>
    ensures { Gives result (form_value Form.Map words.now) }
{
    match words {
        [pairs, text] => map(alloc, pairs.as_bytes(), text.as_bytes()),
        _ => Raise::arity(alloc, b"string"),
    }
}
