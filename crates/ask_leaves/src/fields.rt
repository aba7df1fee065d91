// Fields, looked at and edited.

use http_heads::{Field, Fields};
use px_bytes::{M, Raise, Text, Texts};
use questions::Question;

/// Fields, and behind `/` operations on them.
pub fn answer(question: &mut Question<'_>) {
    let mut fields = Fields::new(question.alloc);
    add_fields(question, &mut fields);
    operations(question, &mut fields);
    question.say("fields");
    question.say_pairs(fields.as_slice());
}

fn add_fields(question: &mut Question<'_>, fields: &mut Fields) {
    for _ in 0..question.before("/").div_ceil(2) {
        if let Some(field) = field(question) {
            let edit = fields.insert(question.alloc, field);
            note_edit(question, &edit);
        }
    }
}

fn note_edit(question: &mut Question<'_>, edit: &Result<(), Raise>) {
    match edit {
        Ok(()) => {}
        Err(Raise::Fault(_)) => question.unknown(),
        Err(Raise::Memory) => question.refuse(),
    }
}

// The field of two words.
fn field(question: &mut Question<'_>) -> Option<Field> {
    let name = question.text();
    let value = question.text();
    let field = Field::new(name, value);
    if field.is_none() {
        question.unknown();
    }
    field
}

fn operations(question: &mut Question<'_>, fields: &mut Fields) {
    if !question.takes("/") {
        question.unknown();
    }
    for _ in 0..question.left() {
        if question.has_more() {
            operation(question, fields);
        }
    }
}

fn operation(question: &mut Question<'_>, fields: &mut Fields) {
    match question.word() {
        "names" => {
            question.say("names");
            say_texts(question, fields.names(question.alloc));
        }
        "insert" => insert(question, fields),
        "replace" => replace(question, fields),
        call => name_operation(question, fields, call),
    }
}

fn insert(question: &mut Question<'_>, fields: &mut Fields) {
    if let Some(field) = field(question) {
        question.say("insert");
        let edit = fields.insert(question.alloc, field);
        question.say_done(&edit);
    }
}

fn replace(question: &mut Question<'_>, fields: &mut Fields) {
    if let Some(field) = field(question) {
        question.say("replace");
        let edit = fields.replace(question.alloc, field);
        question.say_done(&edit);
    }
}

// An operation on all fields of a name.
fn name_operation(question: &mut Question<'_>, fields: &mut Fields, call: &str) {
    let name = question.text();
    answer_of_name(question, fields, call, name.as_bytes());
}

fn answer_of_name(question: &mut Question<'_>, fields: &mut Fields, call: &str, name: &[u8]) {
    question.say(call);
    match call {
        "value" => say_value(question, fields.value(name)),
        "count" => question.say_number(fields.count(name) as u64),
        "values" => say_texts(question, fields.values(question.alloc, name)),
        "remove" => question.say_number(fields.remove(name) as u64),
        _ => question.unknown(),
    }
}

fn say_value(question: &mut Question<'_>, value: Option<&Text>) {
    match value {
        Some(value) => question.say_text(value.as_bytes()),
        None => question.say("none"),
    }
}

// The number of texts, and the texts.
fn say_texts(question: &mut Question<'_>, texts: M<Texts>) {
    let texts = question.made_texts(texts);
    question.say_texts(texts.as_slice());
}
