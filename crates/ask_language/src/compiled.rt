// The step from scripts to trees.

use crate::words::fault_name;
use px_bytes::Text;
use questions::Question;
use std::alloc::Global;
use tcl_compile::{CompileFault, compile};
use tcl_expr::Misread;
use tcl_trees::{Flaw, Node};
use tcl_words::{ParseFault, parse};

pub fn answer(question: &mut Question<'_>) {
    let text = question.text();
    match compiled(question.alloc, &text) {
        Ok(node) => {
            drop(node);
            question.say("ok");
        }
        Err(fault) => say_fault(question, &fault),
    }
}

/// The tree of a text, which is read first, as a rule's body is.
pub fn compiled(alloc: Global, text: &Text) -> Result<Node, CompileFault> {
    match parse(alloc, text.as_bytes()) {
        Ok(script) => {
            let node = compile(alloc, &script);
            drop(script);
            node
        }
        Err(ParseFault::Fault(fault)) => Err(CompileFault::Flaw(Flaw::Parse(fault))),
        Err(ParseFault::Memory) => Err(CompileFault::Memory),
    }
}

/// Why a text has no tree.
pub fn say_fault(question: &mut Question<'_>, fault: &CompileFault) {
    match fault {
        CompileFault::Flaw(flaw) => say_flaw(question, flaw),
        CompileFault::Memory => question.refuse(),
    }
}

fn say_flaw(question: &mut Question<'_>, flaw: &Flaw) {
    question.say("fault");
    match flaw {
        Flaw::Parse(fault) => {
            question.say("parse");
            say_place(question, fault_name(*fault), fault.place());
        }
        Flaw::Expr(Misread::Syntax(at)) => say_place(question, "expr syntax", *at),
        Flaw::Expr(Misread::TooDeep(at)) => say_place(question, "expr too_deep", *at),
        Flaw::Arity(at) => say_place(question, "arity", *at),
        Flaw::BadBody(at) => say_place(question, "bad_body", *at),
    }
}

/// The name of a fault, and its place.
pub fn say_place(question: &mut Question<'_>, name: &str, place: usize) {
    question.say(name);
    question.say_number(place as u64);
}
