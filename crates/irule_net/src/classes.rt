// `class`, by its forms.

ghost use Rattle.std.specs.Prelude.{◌≡◌, IfOk, map};
ghost use Rattle.px_bytes.specs.Gives.{Gives};
ghost use Rattle.irule_net.specs.Classes.{class_value, exists_value, lookup_value, match_value};
ghost use Rattle.irule_net.specs.Classes.{names_value, search_value, size_value};

use crate::faults::no_such_class;
use crate::form::Form;
use crate::groups::{NamedGroup, class_in};
use crate::look_up::{Telling, bit, found, match_option, search_option};
use data_groups::lookup;
use px_bytes::{M, Raise, Text, Texts};
use std::alloc::Global;
use tcl_lists::join_list;

/// What the words behind `class` give in a form of it.
pub(crate) fn class_value(
    alloc: Global,
    classes: &[NamedGroup],
    form: Form,
    words: &[Text],
) -> Result<Text, Raise>
    ensures { Gives result (class_value classes.now form words.now) }
{
    match form {
        Form::Match => match_value(alloc, classes, words),
        Form::Search => search_value(alloc, classes, words),
        Form::Lookup => lookup_value(alloc, classes, words),
        Form::Exists => exists_value(alloc, classes, words),
        Form::Size => size_value(alloc, classes, words),
        Form::Names => names_value(alloc, classes, words),
        _ => Raise::arity(alloc, b"class"),
    }
}

// `match [-value] ITEM OP GROUP`
fn match_value(alloc: Global, classes: &[NamedGroup], words: &[Text]) -> Result<Text, Raise>
    ensures { Gives result (match_value classes.now words.now) }
{
    match words {
        [_, item, op, name] => found(alloc, classes, false, Telling::Whether, op, item, name),
        [_, option, item, op, name] => {
            let Some(telling) = match_option(option.as_bytes()) else {
                return Raise::syntax(alloc, b"class");
            };
            found(alloc, classes, false, telling, op, item, name)
        }
        _ => Raise::arity(alloc, b"class"),
    }
}

// `search [-value|-name] GROUP OP ITEM`
fn search_value(alloc: Global, classes: &[NamedGroup], words: &[Text]) -> Result<Text, Raise>
    ensures { Gives result (search_value classes.now words.now) }
{
    match words {
        [_, name, op, item] => found(alloc, classes, true, Telling::Whether, op, item, name),
        [_, option, name, op, item] => {
            let Some(telling) = search_option(option.as_bytes()) else {
                return Raise::syntax(alloc, b"class");
            };
            found(alloc, classes, true, telling, op, item, name)
        }
        _ => Raise::arity(alloc, b"class"),
    }
}

// `lookup ITEM GROUP`
fn lookup_value(alloc: Global, classes: &[NamedGroup], words: &[Text]) -> Result<Text, Raise>
    ensures { Gives result (lookup_value classes.now words.now) }
{
    let [_, item, name] = words else {
        return Raise::arity(alloc, b"class");
    };
    let Some(group) = class_in(name.as_bytes(), classes) else {
        return no_such_class(alloc, name.as_bytes());
    };
    match lookup(group, item.as_bytes()) {
        Some(text) => Ok(text.copy()?),
        None => Ok(Text::empty(alloc)),
    }
}

// `exists GROUP`
fn exists_value(alloc: Global, classes: &[NamedGroup], words: &[Text]) -> Result<Text, Raise>
    ensures { Gives result (exists_value classes.now words.now) }
{
    let [_, name] = words else {
        return Raise::arity(alloc, b"class");
    };
    let there = class_in(name.as_bytes(), classes).is_some();
    Ok(bit(alloc, there)?)
}

// `size GROUP`
fn size_value(alloc: Global, classes: &[NamedGroup], words: &[Text]) -> Result<Text, Raise>
    ensures { Gives result (size_value classes.now words.now) }
{
    let [_, name] = words else {
        return Raise::arity(alloc, b"class");
    };
    let Some(group) = class_in(name.as_bytes(), classes) else {
        return no_such_class(alloc, name.as_bytes());
    };
    let size = group.rows().len();
    Ok(Text::from_vec(format!(in alloc; "{size}")?.into_bytes()))
}

// `names GROUP`
fn names_value(alloc: Global, classes: &[NamedGroup], words: &[Text]) -> Result<Text, Raise>
    ensures { Gives result (names_value classes.now words.now) }
{
    let [_, name] = words else {
        return Raise::arity(alloc, b"class");
    };
    let Some(group) = class_in(name.as_bytes(), classes) else {
        return no_such_class(alloc, name.as_bytes());
    };
    let keys = keys_of(alloc, group.rows().as_slice())?;
    Ok(join_list(alloc, &keys)?)
}

fn keys_of(alloc: Global, rows: &[(Text, Text)]) -> M<Texts>
    ensures { IfOk result (λ keys. keys ≡ map (λ row. row.0) rows.now) }
{
    let mut keys = Texts::new(alloc);
    for row in rows {
        keys.push(row.0.copy()?)?;
    }
    Ok(keys)
}
