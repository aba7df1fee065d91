// What the evaluator gives.

use crate::compiled::{compiled, say_fault};
use crate::host::NoHost;
use plain_eval::{Plain, PlainCode, Replies, eval_plain};
use px_bytes::{M, Memory, Raise, TclFault, Text};
use questions::Question;
use std::alloc::Global;
use tcl_compile::CompileFault;
use tcl_trees::{Node, Procs, Verb};
use tcl_vars::Vars;

/// The budget of a body, more than a rule can have.
const BUDGET: u32 = 4_000_000_000;

/// The budget that a rule's body has where the configuration gives none.
const RULE_BUDGET: u32 = 100_000;

pub fn answer(question: &mut Question<'_>, call: &str) {
    let text = question.text();
    match call {
        "value" => question.say_value(&expression_value(question.alloc, &text)),
        "body" => question.say_value(&body_value(question.alloc, &text)),
        _ => run_answer(question, &text),
    }
}

// `expr TEXT`, whose text is read when it runs.
fn expression_value(alloc: Global, text: &Text) -> Result<Text, Raise> {
    let node = expression(alloc, text)?;
    let value = evaluated(alloc, &node);
    drop(node);
    value
}

fn expression(alloc: Global, text: &Text) -> M<Node> {
    let mut words = Vec::new(alloc);
    match push_words(alloc, &mut words, text) {
        Ok(()) => Ok(Node::Command(Verb::ExprOfWords, words)),
        Err(Memory) => {
            drop(words);
            Err(Memory)
        }
    }
}

fn push_words(alloc: Global, words: &mut Vec<Node>, text: &Text) -> M<()> {
    push_word(alloc, words, b"expr")?;
    push_word(alloc, words, text.as_bytes())
}

fn push_word(alloc: Global, words: &mut Vec<Node>, text: &[u8]) -> M<()> {
    let mut parts = Vec::new(alloc);
    let pushed = push_plain(alloc, &mut parts, text);
    words.push(Node::Word(parts))?;
    pushed
}

fn push_plain(alloc: Global, parts: &mut Vec<Node>, text: &[u8]) -> M<()> {
    Ok(parts.push(Node::Plain(Text::new(alloc, text)?))?)
}

// The value of a script, or what it returns.
fn body_value(alloc: Global, text: &Text) -> Result<Text, Raise> {
    match compiled(alloc, text) {
        Ok(node) => {
            let value = evaluated(alloc, &node);
            drop(node);
            value
        }
        Err(CompileFault::Flaw(_)) => unread(alloc),
        Err(CompileFault::Memory) => Err(Raise::Memory),
    }
}

// How a script ends, which has the budget of a rule's body.
fn run_answer(question: &mut Question<'_>, text: &Text) {
    match compiled(question.alloc, text) {
        Ok(node) => {
            let end = ran(question.alloc, &node, RULE_BUDGET);
            drop(node);
            say_end(question, &end);
        }
        Err(fault) => say_fault(question, &fault),
    }
}

fn say_end(question: &mut Question<'_>, end: &M<Plain>) {
    match end {
        Ok(Plain::Done { code, used: _ }) => say_code(question, code),
        Ok(Plain::Waits { call: _ }) => question.say("waits"),
        Err(Memory) => question.refuse(),
    }
}

fn say_code(question: &mut Question<'_>, code: &PlainCode) {
    match code {
        PlainCode::Ends(value) => {
            question.say("ok");
            question.say_hex(value.as_bytes());
        }
        PlainCode::Return(value) => {
            question.say("return");
            question.say_hex(value.as_bytes());
        }
        PlainCode::Raised(fault) => question.say_whole_fault(fault),
        PlainCode::Break => question.say("break"),
        PlainCode::Continue => question.say("continue"),
    }
}

fn unread(alloc: Global) -> Result<Text, Raise> {
    Err(Raise::Fault(TclFault::syntax_error(alloc, b"body")?))
}

fn evaluated(alloc: Global, node: &Node) -> Result<Text, Raise> {
    match ran(alloc, node, BUDGET)? {
        Plain::Done { code, used: _ } => code_value(alloc, code),
        Plain::Waits { call: _ } => unread(alloc),
    }
}

fn ran(alloc: Global, node: &Node, budget: u32) -> M<Plain> {
    let mut vars = Vars::new(alloc);
    let procs = Procs::new(alloc);
    let replies = Replies::new(alloc);
    let mut host = NoHost {};
    eval_plain(
        alloc,
        node,
        &procs,
        None,
        &mut vars,
        &mut host,
        &(),
        &replies,
        budget,
    )
}

fn code_value(alloc: Global, code: PlainCode) -> Result<Text, Raise> {
    match code {
        PlainCode::Ends(value) => Ok(value),
        PlainCode::Return(value) => Ok(value),
        PlainCode::Raised(fault) => Err(Raise::Fault(fault)),
        PlainCode::Break => Err(Raise::Fault(TclFault::outside_loop(alloc, b"break")?)),
        PlainCode::Continue => Err(Raise::Fault(TclFault::outside_loop(alloc, b"continue")?)),
    }
}
