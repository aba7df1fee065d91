// The command `array`.

ghost use Rattle.std.specs.Prelude.{◌≡◌, Some, option_map};
ghost use Rattle.tcl_var_commands.specs.Array.{array_changed, form_of, formed};
ghost use Rattle.tcl_var_commands.specs.Changed.{Changes};

use crate::array_reading::ask_form;
use crate::array_setting::{set_form, unset_form};
use px_bytes::{Raise, Text, Texts};
use std::alloc::Global;
use tcl_vars::Vars;

/// What the word behind `array` says to do.
#[derive(Clone, Copy)]
pub(crate) enum ArrayForm {
    Ask(Question),
    Set,
    Unset,
}

/// What is asked of the indexed values of a name.
#[derive(Clone, Copy)]
pub(crate) enum Question {
    Exists,
    Get,
    Names,
    Size,
}

/// `array exists|get|names|size|unset NAME` and `array set NAME PAIRS`: the values that the name
/// has at indexes are asked for, set or taken away. The name is taken whole, and its plain value
/// stays.
pub fn array_command(
    alloc: Global,
    statics: Option<&Vars>,
    words: &Texts,
    vars: &mut Vars,
) -> Result<Text, Raise>
    ensures { let level = option_map (λ v. v.now.statics) statics.entry in
        Changes (array_changed level words.now vars.old) result vars.new }
{
    let [_, form, words @ ..] = words.as_slice() else {
        return Raise::arity(alloc, b"array");
    };
    match form_of(form.as_bytes()) {
        Some(form) => formed(alloc, statics, form, words, vars),
        None => Raise::syntax(alloc, b"array"),
    }
}

fn formed(
    alloc: Global,
    statics: Option<&Vars>,
    form: ArrayForm,
    words: &[Text],
    vars: &mut Vars,
) -> Result<Text, Raise>
    ensures { let level = option_map (λ v. v.now.statics) statics.entry in
        Changes (formed level (Some form) words.now vars.old) result vars.new }
{
    match form {
        ArrayForm::Ask(question) => ask_form(alloc, statics, question, words, vars),
        ArrayForm::Set => set_form(alloc, statics, words, vars),
        ArrayForm::Unset => unset_form(alloc, statics, words, vars),
    }
}

fn form_of(word: &[u8]) -> Option<ArrayForm>
    ensures { result ≡ form_of word.now }
{
    if word == b"exists".as_slice() {
        return Some(ArrayForm::Ask(Question::Exists));
    }
    if word == b"get".as_slice() {
        return Some(ArrayForm::Ask(Question::Get));
    }
    if word == b"names".as_slice() {
        return Some(ArrayForm::Ask(Question::Names));
    }
    if word == b"size".as_slice() {
        return Some(ArrayForm::Ask(Question::Size));
    }
    if word == b"set".as_slice() {
        return Some(ArrayForm::Set);
    }
    if word == b"unset".as_slice() {
        return Some(ArrayForm::Unset);
    }
    None
}
