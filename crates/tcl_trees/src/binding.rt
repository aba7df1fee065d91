// The values that a call gives a procedure's parameters.

ghost use Rattle.std.specs.Prelude.{◌≡◌, IfOk, [], drop};
ghost use Rattle.tcl_lists.specs.Write.{joined};
ghost use Rattle.tcl_trees.specs.Procedures.{next_value, takes_rest, values_bound};

use crate::procs::Parameter;
use px_bytes::{M, Text, Texts};
use std::alloc::Global;
use tcl_lists::join_list;

/// Whether the parameter before these takes all words that are left, as a list.
fn takes_rest(parameter: &Parameter, behind: &[Parameter]) -> bool
    ensures { result ≡ takes_rest parameter.now behind.now }
{
    behind.is_empty() && parameter.name.as_bytes() == b"args".as_slice()
}

/// The words as a list.
fn joined(alloc: Global, words: &[Text]) -> M<Text>
    ensures { IfOk result (λ text. text ≡ joined words.now) }
{
    let mut items = Texts::new(alloc);
    for word in words {
        items.push(word.copy()?)?;
    }
    join_list(alloc, &items)
}

/// The next word as the parameter's value, or its default where no word is left.
fn next_value(parameter: &Parameter, words: &[Text]) -> M<Option<Text>>
    ensures { IfOk result (λ value. value ≡ next_value parameter.now words.now) }
{
    let value = match words.first() {
        Some(word) => word,
        None => match &parameter.default {
            Some(default) => default,
            None => return Ok(None),
        },
    };
    Ok(Some(value.copy()?))
}

/// The words behind the next one.
fn behind_next(words: &[Text]) -> &[Text]
    ensures { result.now ≡ drop 1 words.now }
{
    match words {
        [_, behind @ ..] => behind,
        [] => words,
    }
}

/// The value of each parameter in order, where the words behind the procedure's name are these, or
/// none where their number is wrong.
///
/// A parameter takes the next word, and where none is left its default. A last parameter `args`
/// takes all words that are left, as a list.
#[tactic(auto, unfolding(crate::specs::Procedures::values_bound))]
pub fn bound_values(alloc: Global, parameters: &[Parameter], words: &[Text]) -> M<Option<Texts>>
    ensures { IfOk result (λ values. values ≡ values_bound parameters.now words.now) }
{
    let mut values = Texts::new(alloc);
    let mut due = parameters;
    let mut left = words;
    while let [parameter, behind @ ..] = due {
        if takes_rest(parameter, behind) {
            values.push(joined(alloc, left)?)?;
            return Ok(Some(values));
        }
        let Some(value) = next_value(parameter, left)? else {
            return Ok(None);
        };
        values.push(value)?;
        due = behind;
        left = behind_next(left);
    }
    Ok(left.is_empty().then_some(values))
}
