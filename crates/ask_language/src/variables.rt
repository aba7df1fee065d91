// The calls of tcl_vars.

use px_bytes::{M, Raise, Text, Texts};
use questions::Question;
use std::alloc::Global;
use tcl_vars::Vars;

/// The name of the variable that grows.
const NAME: &[u8] = b"x";

pub fn answer(question: &mut Question<'_>) {
    let texts = question.all_texts();
    let mut vars = Vars::new(question.alloc);
    let value = appended(question.alloc, &mut vars, &texts);
    question.say_value(&value);
}

// The value of a variable behind which the texts were put, one after another.
fn appended(alloc: Global, vars: &mut Vars, texts: &Texts) -> Result<Text, Raise> {
    for text in texts.as_slice() {
        vars.append(NAME, None, text.as_bytes())?;
    }
    Ok(value_of(alloc, vars)?)
}

fn value_of(alloc: Global, vars: &Vars) -> M<Text> {
    match vars.get(NAME, None) {
        Some(value) => value.copy(),
        None => Ok(Text::empty(alloc)),
    }
}
