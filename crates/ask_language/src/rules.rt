// The calls of rule_loader and event_order.

use event_order::{EventName, allowed, read_event};
use px_bytes::M;
use questions::Question;
use rule_loader::{Handlers, LoadFault, LoadKind, Rule, RuleFault, load_rule};
use tcl_trees::{Parameter, Proc};

/// The events in the order in which an answer tells their bodies.
const TOLD: [EventName; 13] = [
    EventName::RuleInit,
    EventName::ClientAccepted,
    EventName::ClientData,
    EventName::LbSelected,
    EventName::LbFailed,
    EventName::ServerConnected,
    EventName::ServerData,
    EventName::HttpRequest,
    EventName::HttpRequestData,
    EventName::HttpResponse,
    EventName::HttpResponseData,
    EventName::ServerClosed,
    EventName::ClientClosed,
];

pub fn answer(question: &mut Question<'_>, call: &str) {
    match call {
        "load" => load_answer(question),
        "allowed" => allowed_answer(question),
        _ => event_answer(question),
    }
}

fn load_answer(question: &mut Question<'_>) {
    let text = question.text();
    match load_rule(question.alloc, b"r", text.as_bytes()) {
        Ok(rule) => {
            say_rule(question, &rule);
            drop(rule);
        }
        Err(LoadFault::Fault(fault)) => say_fault(question, fault),
        Err(LoadFault::Memory) => question.refuse(),
    }
}

fn say_fault(question: &mut Question<'_>, fault: RuleFault) {
    question.say("fault");
    question.say(match fault.kind {
        LoadKind::Parse(_) => "parse",
        LoadKind::NotWhen => "not_when",
        LoadKind::NoEvent => "no_event",
        LoadKind::NoCommand => "no_command",
        LoadKind::BadPriority => "bad_priority",
        LoadKind::TwiceProc => "twice_proc",
        LoadKind::NotHere => "not_here",
    });
    question.say_number(fault.place as u64);
}

// The priorities of the bodies of each event that has any, and then the procedures.
fn say_rule(question: &mut Question<'_>, rule: &Rule) {
    question.say("ok");
    for event in TOLD {
        say_handlers(question, event, rule.handlers(event));
    }
    let mut procedures: Vec<&Proc> = Vec::new(question.alloc);
    let collected = collect_procedures(&mut procedures, rule);
    question.note(collected);
    for procedure in procedures {
        say_procedure(question, procedure);
    }
}

fn say_handlers(question: &mut Question<'_>, event: EventName, handlers: &Handlers) {
    let mut mark: &[u8] = b":";
    for handler in handlers.as_slice() {
        if mark == b":".as_slice() {
            question.put(b" ");
            question.put(event.text());
        }
        question.put(mark);
        question.put_number(u64::from(handler.priority));
        mark = b",";
    }
}

// The procedures, sorted by the bytes of their names.
fn collect_procedures<'a>(procedures: &mut Vec<&'a Proc>, rule: &'a Rule) -> M<()> {
    for place in 0..usize::MAX {
        let Some(procedure) = rule.procs.at(place) else {
            break;
        };
        procedures.push(procedure)?;
    }
    procedures.sort_unstable_by(|a, b| a.name.as_bytes().cmp(b.name.as_bytes()));
    Ok(())
}

fn say_procedure(question: &mut Question<'_>, procedure: &Proc) {
    question.put(b" proc:");
    question.put_hex(procedure.name.as_bytes());
    let mut mark: &[u8] = b"(";
    for parameter in &procedure.parameters {
        question.put(mark);
        put_parameter(question, parameter);
        mark = b",";
    }
    if mark == b"(".as_slice() {
        question.put(mark);
    }
    question.put(b")");
}

fn put_parameter(question: &mut Question<'_>, parameter: &Parameter) {
    question.put_hex(parameter.name.as_bytes());
    if let Some(default) = &parameter.default {
        question.put(b"=");
        question.put_hex(default.as_bytes());
    }
}

fn allowed_answer(question: &mut Question<'_>) {
    let command = question.text();
    match read_event(question.word().as_bytes()) {
        Some(event) => question.say_truth(allowed(command.as_bytes(), event)),
        None => question.unknown(),
    }
}

fn event_answer(question: &mut Question<'_>) {
    let text = question.text();
    match read_event(text.as_bytes()) {
        Some(event) => question.put(event.text()),
        None => question.say("none"),
    }
}
