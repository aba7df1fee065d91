// The calls of tcl_words.

use crate::compiled::say_place;
use crate::script::put_script;
use questions::Question;
use tcl_words::{Fault, ParseFault, Script, parse};

pub fn answer(question: &mut Question<'_>) {
    let text = question.text();
    match parse(question.alloc, text.as_bytes()) {
        Ok(script) => {
            say_script(question, &script);
            drop(script);
        }
        Err(ParseFault::Fault(fault)) => {
            question.say("fault");
            say_place(question, fault_name(fault), fault.place());
        }
        Err(ParseFault::Memory) => question.refuse(),
    }
}

fn say_script(question: &mut Question<'_>, script: &Script) {
    question.say("ok ");
    put_script(question, script);
}

/// The name of a fault in an answer.
pub fn fault_name(fault: Fault) -> &'static str {
    match fault {
        Fault::MissingBrace(_) => "missing_brace",
        Fault::MissingQuote(_) => "missing_quote",
        Fault::MissingBracket(_) => "missing_bracket",
        Fault::ExtraAfter(_) => "extra_after",
        Fault::BadEscape(_) => "bad_escape",
        Fault::TooDeep(_) => "too_deep",
    }
}
