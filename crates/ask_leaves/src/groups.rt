// The calls of data_groups.

use data_groups::{ClassOp, Group, GroupFault, GroupKind, lookup, match_first, search};
use px_bytes::Text;
use questions::Question;

/// The most times that `many` asks.
const MOST_TIMES: u64 = 10_000_000;

pub fn answer(question: &mut Question<'_>, call: &str) {
    match call {
        "group" => group_answer(question),
        "many" => {
            let count = question.number(MOST_TIMES);
            item_answer(question, call, count);
        }
        "match" | "search" | "lookup" => item_answer(question, call, 1),
        _ => question.unknown(),
    }
}

fn group_answer(question: &mut Question<'_>) {
    let kind = kind(question);
    let group = Group::new(question.alloc, kind, question.pairs());
    say_group(question, &group);
}

fn say_group(question: &mut Question<'_>, group: &Result<Group, GroupFault>) {
    match group {
        Ok(_) => question.say("ok"),
        Err(GroupFault::BadKey(at)) => {
            question.say("bad_key");
            question.say_number(*at as u64);
        }
        Err(GroupFault::Memory) => question.refuse(),
    }
}

// The answer about an item, which `many` asks so many times.
fn item_answer(question: &mut Question<'_>, call: &str, count: u64) {
    let kind = kind(question);
    let op = match call {
        "lookup" => ClassOp::Equals,
        _ => op(question),
    };
    let item = question.text();
    let group = Group::new(question.alloc, kind, question.pairs());
    let count = if question.is_known() { count } else { 1 };
    say_item(question, call, &group, op, item.as_bytes(), count);
}

fn say_item(
    question: &mut Question<'_>,
    call: &str,
    group: &Result<Group, GroupFault>,
    op: ClassOp,
    item: &[u8],
    count: u64,
) {
    match group {
        Ok(group) => match call {
            "lookup" => say_value(question, lookup(group, item)),
            "search" => say_row(question, search(group, op, item)),
            _ => say_match(question, group, op, item, count),
        },
        Err(GroupFault::BadKey(_)) => question.unknown(),
        Err(GroupFault::Memory) => question.refuse(),
    }
}

// The answer of `match`, asked so many times, once at least.
fn say_match(question: &mut Question<'_>, group: &Group, op: ClassOp, item: &[u8], count: u64) {
    let mut at = match_first(group, op, item);
    for _ in 1..count {
        at = match_first(group, op, item);
    }
    say_row(question, at);
}

fn say_row(question: &mut Question<'_>, at: Option<usize>) {
    match at {
        Some(at) => question.say_number(at as u64),
        None => question.say("none"),
    }
}

fn say_value(question: &mut Question<'_>, value: Option<&Text>) {
    match value {
        Some(value) => question.say_bytes(value.as_bytes()),
        None => question.say("none"),
    }
}

fn kind(question: &mut Question<'_>) -> GroupKind {
    match question.word() {
        "string" => GroupKind::String,
        "ip" => GroupKind::Ip,
        "integer" => GroupKind::Integer,
        _ => {
            question.unknown();
            GroupKind::String
        }
    }
}

fn op(question: &mut Question<'_>) -> ClassOp {
    match question.word() {
        "equals" => ClassOp::Equals,
        "starts_with" => ClassOp::StartsWith,
        "ends_with" => ClassOp::EndsWith,
        "contains" => ClassOp::Contains,
        _ => {
            question.unknown();
            ClassOp::Equals
        }
    }
}
