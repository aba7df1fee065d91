// The forms of `array` that only read.

ghost use Rattle.std.specs.Prelude.{◌≡◌, IfOk, None, decimal, option_map};
ghost use Rattle.std.specs.Map.{keys_of};
ghost use Rattle.px_bytes.specs.Gives.{Gives};
ghost use Rattle.px_bytes.specs.Limit.{limited};
ghost use Rattle.tcl_lists.specs.Write.{joined};
ghost use Rattle.tcl_vars.specs.Scopes.{elements};
ghost use Rattle.tcl_var_commands.specs.Array.{answer_of, ask_form, pairs_of};
ghost use Rattle.tcl_var_commands.specs.Changed.{Changes};
ghost use Rattle.tcl_var_commands.specs.Reading.{level_read};

use crate::array::Question;
use crate::info::flag;
use crate::reading::source;
use px_bytes::{M, Raise, TEXT_LIMIT, Text, Texts};
use std::alloc::Global;
use tcl_lists::join_list;
use tcl_vars::Vars;

/// `array exists|get|names|size NAME`: whether the name has a value at an index, the list of these
/// indexes with their values, the list of the indexes alone in the order of their bytes, and their
/// number.
pub(crate) fn ask_form(
    alloc: Global,
    statics: Option<&Vars>,
    question: Question,
    words: &[Text],
    vars: &Vars,
) -> Result<Text, Raise>
    ensures { let level = option_map (λ v. v.now.statics) statics.entry in
        Changes (ask_form level question words.now vars.now) result vars.now }
{
    let [name] = words else {
        return Raise::arity(alloc, b"array");
    };
    let name = name.as_bytes();
    answer(alloc, question, source(statics, vars, name), name)
}

fn answer(alloc: Global, question: Question, vars: &Vars, name: &[u8]) -> Result<Text, Raise>
    ensures { let table = elements name.now (level_read None vars.now name.now) in
        Gives result (answer_of question table) }
{
    match question {
        Question::Exists => Ok(flag(alloc, indexes(vars, name)?.len() > 0)?),
        Question::Get => written(alloc, &pairs(alloc, vars, name)?),
        Question::Names => written(alloc, &indexes(vars, name)?),
        Question::Size => Ok(printed(alloc, indexes(vars, name)?.len())?),
    }
}

// The indexes at which a name has values.
fn indexes(vars: &Vars, name: &[u8]) -> M<Texts>
    ensures { let table = elements name.now (level_read None vars.now name.now) in
        IfOk result (λ names. names ≡ keys_of table) }
{
    vars.indexes(name)
}

// The same, each with its value behind it.
fn pairs(alloc: Global, vars: &Vars, name: &[u8]) -> M<Texts>
    ensures { let table = elements name.now (level_read None vars.now name.now) in
        IfOk result (λ texts. texts ≡ pairs_of table) }
{
    let mut pairs = Texts::new(alloc);
    for index in vars.indexes(name)?.as_slice() {
        pairs.push(index.copy()?)?;
        if let Some(value) = vars.get(name, Some(index.as_bytes())) {
            pairs.push(value.copy()?)?;
        }
    }
    Ok(pairs)
}

// A number in decimal.
fn printed(alloc: Global, number: usize) -> M<Text>
    ensures { IfOk result (λ text. text ≡ decimal number) }
{
    Ok(Text::from_vec(format!(in alloc; "{number}")?.into_bytes()))
}

// The elements as a list, where that isn't too long.
fn written(alloc: Global, elements: &Texts) -> Result<Text, Raise>
    ensures { Gives result (limited (joined elements.now)) }
{
    let text = join_list(alloc, elements)?;
    if text.len() > TEXT_LIMIT {
        return Raise::too_long(alloc);
    }
    Ok(text)
}
