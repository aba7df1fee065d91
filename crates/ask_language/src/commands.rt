// Pure commands.

ghost use Rattle.std.specs.Prelude.{◌≡◌, ◌<◌};

use px_bytes::{M, Memory, Raise, Steps, Text, Texts};
use questions::Question;
use std::alloc::Global;
use std::marker::Brand;
use std::sync::ledger::{Blank, Ledger};
use tcl_commands::pure;

pub fn answer(question: &mut Question<'_>) {
    let words = question.all_texts();
    question.say_value(&pure_value(question.alloc, &words));
}

/// The answer to `pure_long`, whose value is told by its length and its SHA-256.
pub fn long_answer(question: &mut Question<'_>) {
    let words = question.all_texts();
    match pure_value(question.alloc, &words) {
        Ok(value) => say_sum(question, value),
        Err(Raise::Fault(fault)) => question.say_whole_fault(&fault),
        Err(Raise::Memory) => question.refuse(),
    }
}

// `ok`, the value's length, and its SHA-256 in hexadecimal.
fn say_sum(question: &mut Question<'_>, value: Text) {
    let length = value.len() as u64;
    match sum_of(question.alloc, value) {
        Ok(sum) => {
            question.say("ok");
            question.say_number(length);
            question.say_hex(sum.as_bytes());
        }
        Err(Raise::Fault(fault)) => question.say_whole_fault(&fault),
        Err(Raise::Memory) => question.refuse(),
    }
}

fn sum_of(alloc: Global, value: Text) -> Result<Text, Raise> {
    let mut words = Texts::new(alloc);
    match push_both(&mut words, Text::new(alloc, b"sha256"), value) {
        Ok(()) => pure_value(alloc, &words),
        Err(Memory) => Err(Raise::Memory),
    }
}

fn push_both(words: &mut Texts, first: M<Text>, second: Text) -> M<()> {
    words.push(first?)?;
    words.push(second)
}

// The value of a pure command.
fn pure_value(alloc: Global, words: &Texts) -> Result<Text, Raise> {
    called::<Brand>(alloc, words, Blank::new(1))
}

fn called<L: Ledger>(alloc: Global, words: &Texts, blank: Blank) -> Result<Text, Raise>
    requires name { blank.name ≡ L.name }
    requires parts { blank.parts ≡ L.parts }
    requires some { 0 < blank.parts }
{
    let mut steps = Steps::<L>::new(blank);
    pure(alloc, words, &mut steps)
}
