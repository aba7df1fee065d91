// The reader of expressions.

use crate::compiled::say_place;
use questions::Question;
use tcl_expr::{ExprFault, Misread, parse_expr};

pub fn answer(question: &mut Question<'_>) {
    let text = question.text();
    match parse_expr(question.alloc, text.as_bytes()) {
        Ok(tree) => {
            drop(tree);
            question.say("ok");
        }
        Err(ExprFault::Fault(fault)) => say_fault(question, fault),
        Err(ExprFault::Memory) => question.refuse(),
    }
}

fn say_fault(question: &mut Question<'_>, fault: Misread) {
    match fault {
        Misread::Syntax(at) => say_place(question, "fault syntax", at),
        Misread::TooDeep(at) => say_place(question, "fault too_deep", at),
    }
}
