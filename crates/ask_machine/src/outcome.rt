// What a body came to, added to a text.

use crate::body::AskedBody;
use crate::echo::Echo;
use plain_eval::PlainCode;
use px_bytes::{M, TclFault, Text, Texts, print_hex};
use rule_model::Code;
use std::alloc::Global;
use tcl_vars::Vars;

/// How a body ends, by either evaluator.
#[derive(Clone, Copy)]
pub enum BodyEnd<'a> {
    Value(&'a Text),
    Return(&'a Text),
    Raised(&'a TclFault),
    Break,
    Continue,
}

/// The end that a code is.
pub fn end_of(code: &Code) -> BodyEnd<'_> {
    match code {
        Code::Value(value) => BodyEnd::Value(value),
        Code::Return(value) => BodyEnd::Return(value),
        Code::Raised(fault) => BodyEnd::Raised(fault),
        Code::Break => BodyEnd::Break,
        Code::Continue => BodyEnd::Continue,
    }
}

/// The end that a code of the plain evaluator is.
pub fn plain_end(code: &PlainCode) -> BodyEnd<'_> {
    match code {
        PlainCode::Ends(value) => BodyEnd::Value(value),
        PlainCode::Return(value) => BodyEnd::Return(value),
        PlainCode::Raised(fault) => BodyEnd::Raised(fault),
        PlainCode::Break => BodyEnd::Break,
        PlainCode::Continue => BodyEnd::Continue,
    }
}

/// How a body ends: with a value, a fault by its number and text, or another code.
pub fn push_end(alloc: Global, out: &mut Text, end: BodyEnd<'_>) -> M<()> {
    match end {
        BodyEnd::Value(value) => push_hex(alloc, out, b"ends ", value),
        BodyEnd::Return(value) => push_hex(alloc, out, b"returns ", value),
        BodyEnd::Raised(fault) => {
            push_number(alloc, out, b"fault ", fault.kind as u64)?;
            push_hex(alloc, out, b" ", &fault.text)
        }
        BodyEnd::Break => out.push(b"break"),
        BodyEnd::Continue => out.push(b"continue"),
    }
}

/// The bytes of a text in hexadecimal, behind these.
pub fn push_hex(alloc: Global, out: &mut Text, front: &[u8], text: &Text) -> M<()> {
    out.push(front)?;
    let digits = print_hex(alloc, text.as_bytes())?;
    let pushed = out.push(digits.as_bytes());
    drop(digits);
    pushed
}

/// A number in decimal, behind these bytes.
pub fn push_number(alloc: Global, out: &mut Text, front: &[u8], number: u64) -> M<()> {
    out.push(front)?;
    let digits = format!(in alloc; "{number}")?;
    let pushed = out.push(digits.as_bytes());
    drop(digits);
    pushed
}

/// The shared call for which a body waits.
pub fn push_asks(alloc: Global, out: &mut Text, call: &Texts) -> M<()> {
    out.push(b"asks")?;
    for word in call.as_slice() {
        push_hex(alloc, out, b" ", word)?;
    }
    Ok(())
}

/// What was sent, and the variables that the words of the rule name, behind how the body ended.
pub fn push_whole(
    alloc: Global,
    out: &mut Text,
    body: AskedBody<'_>,
    host: &Echo,
    vars: &Vars,
) -> M<()> {
    push_hex(alloc, out, b" sent ", host.sent())?;
    push_number(alloc, out, b" bytes ", vars.bytes() as u64)?;
    for name in body.text.split(|byte| !byte.is_ascii_alphanumeric()) {
        push_variable(out, name, vars)?;
    }
    Ok(())
}

fn push_variable(out: &mut Text, name: &[u8], vars: &Vars) -> M<()> {
    if let Some(value) = vars.get(name, None) {
        push_value(out, name, value)?;
    }
    let indexes = vars.indexes(name)?;
    let pushed = push_elements(out, name, indexes.as_slice(), vars);
    drop(indexes);
    pushed
}

fn push_elements(out: &mut Text, name: &[u8], indexes: &[Text], vars: &Vars) -> M<()> {
    for index in indexes {
        if let Some(value) = vars.get(name, Some(index.as_bytes())) {
            push_value(out, index.as_bytes(), value)?;
        }
    }
    Ok(())
}

fn push_value(out: &mut Text, name: &[u8], value: &Text) -> M<()> {
    out.push(b" ")?;
    out.push(name)?;
    out.push(b"=")?;
    out.push(value.as_bytes())
}
