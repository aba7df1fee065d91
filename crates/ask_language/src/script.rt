// Scripts as text.

use px_bytes::Text;
use questions::Question;
use tcl_words::{Form, Part, Script, ScriptCommand, Span, Word};

/// Puts a script behind the answer.
#[cycle(script)]
pub fn put_script(question: &mut Question<'_>, script: &Script) {
    question.put(b"[");
    let mut first = true;
    for command in &script.commands {
        if !first {
            question.put(b" ");
        }
        first = false;
        put_command(question, command);
    }
    question.put(b"]");
}

#[cycle(script)]
fn put_command(question: &mut Question<'_>, command: &ScriptCommand) {
    question.put(b"(");
    let mut first = true;
    for word in &command.words {
        if !first {
            question.put(b" ");
        }
        first = false;
        put_word(question, word);
    }
    question.put(b")");
}

#[cycle(script)]
fn put_word(question: &mut Question<'_>, word: &Word) {
    let form = match word.form {
        Form::Bare => b'p',
        Form::Quoted => b'q',
        Form::Braced => b'b',
    };
    put_span(question, form, word.span);
    question.put(b":");
    put_parts(question, &word.parts)
}

/// The parts, but a plain one without a byte.
#[cycle(script)]
fn put_parts(question: &mut Question<'_>, parts: &[Part]) {
    let mut first = true;
    for part in parts {
        if is_empty_part(part) {
            continue;
        }
        if !first {
            question.put(b",");
        }
        first = false;
        put_part(question, part);
    }
}

fn is_empty_part(part: &Part) -> bool {
    match part {
        Part::Plain { text, .. } => text.len() == 0,
        _ => false,
    }
}

#[cycle(script)]
fn put_part(question: &mut Question<'_>, part: &Part) {
    match part {
        Part::Plain { span, text } => put_text(question, b't', *span, text),
        Part::Variable { span, name } => put_text(question, b'v', *span, name),
        Part::Element { span, name, index } => {
            put_text(question, b'v', *span, name);
            question.put(b"{");
            put_parts(question, index);
            question.put(b"}");
        }
        Part::Bracket { span, script } => {
            put_span(question, b's', *span);
            question.put(b"=");
            put_script(question, script)
        }
    }
}

fn put_text(question: &mut Question<'_>, kind: u8, span: Span, text: &Text) {
    put_span(question, kind, span);
    question.put(b"=");
    question.put_hex(text.as_bytes());
}

/// The letter and the span.
fn put_span(question: &mut Question<'_>, letter: u8, span: Span) {
    question.put(&[letter]);
    question.put_number(span.start as u64);
    question.put(b"-");
    question.put_number(span.end as u64);
}
