// Questions, and their answers.

use crate::body::AskedBody;
use crate::outcome::push_hex;
use crate::plain::plain;
use crate::read::{read_into, read_replies};
use crate::stepped::{GivenReplies, stepped};
use crate::suspended::run_suspended;
use conn::Handler;
use event_order::EventName;
use plain_eval::Replies;
use px_bytes::{M, Memory, Reply, Text};
use rule_loader::{LoadFault, Rule, load_rule};
use std::alloc::Global;

/// The slices of steps: single ones, seven, and all of them.
const SLICES: [u32; 3] = [1, 7, 4_000_000];

/// The budget of a body, as the program has it, and of one that is measured.
const BUDGET: u32 = 100_000;

const LONG_BUDGET: u32 = 4_000_000_000;

/// The most calls of a body that get a reply.
const MOST_REPLIES: u32 = 200;

/// What is asked of a rule's first body, or of a script.
#[derive(Clone, Copy)]
pub enum MachineQuestion<'a> {
    /// With no shared call, and where all commands of the host are shared and get the empty reply.
    Case,
    /// On these replies: the calls that get one, with their paths, and its end.
    Replies(&'a [&'a str]),
    /// On these replies as a connection keeps it: the calls, its end, and what it sent.
    Connection(&'a [&'a str]),
    /// The value of a script, or what it returns, by steps with a budget that is hardly spent.
    Script,
}

/// Adds the answer to a question about the rule that a word writes: whether it can be asked.
pub fn answer(alloc: Global, question: MachineQuestion<'_>, word: &str, out: &mut Text) -> M<bool> {
    let mut text = Text::empty(alloc);
    let answered = read_and_answer(alloc, question, word, &mut text, out);
    drop(text);
    answered
}

fn read_and_answer(
    alloc: Global,
    question: MachineQuestion<'_>,
    word: &str,
    text: &mut Text,
    out: &mut Text,
) -> M<bool> {
    if let MachineQuestion::Script = question {
        text.push(b"when CLIENT_ACCEPTED {\n")?;
    }
    if !read_into(alloc, word, text)? {
        return Ok(false);
    }
    if let MachineQuestion::Script = question {
        text.push(b"\n}")?;
    }
    load_and_answer(alloc, question, text, out)
}

fn load_and_answer(
    alloc: Global,
    question: MachineQuestion<'_>,
    text: &Text,
    out: &mut Text,
) -> M<bool> {
    match load_rule(alloc, b"r", text.as_bytes()) {
        Ok(rule) => {
            let answered = rule_answer(alloc, question, &rule, text, out);
            drop(rule);
            answered
        }
        Err(LoadFault::Fault(_)) => {
            out.push(b"refused")?;
            Ok(true)
        }
        Err(LoadFault::Memory) => Err(Memory),
    }
}

fn rule_answer(
    alloc: Global,
    question: MachineQuestion<'_>,
    rule: &Rule,
    text: &Text,
    out: &mut Text,
) -> M<bool> {
    let (Some(own), Some(shared)) = (body_of(rule, text, false), body_of(rule, text, true)) else {
        return Ok(false);
    };
    match question {
        MachineQuestion::Case => case(alloc, own, shared, out)?,
        MachineQuestion::Replies(words) => return replies(alloc, own, words, out),
        MachineQuestion::Connection(words) => return connection(alloc, rule, own, words, out),
        MachineQuestion::Script => script(alloc, own, out)?,
    }
    Ok(true)
}

// The first body that runs when a client was accepted.
fn body_of<'a>(rule: &'a Rule, text: &'a Text, all_shared: bool) -> Option<AskedBody<'a>> {
    let handler = rule.handlers(EventName::ClientAccepted).get(0)?;
    Some(AskedBody {
        tree: &handler.body,
        procs: &rule.procs,
        all_shared,
        text: text.as_bytes(),
        budget: BUDGET,
    })
}

fn case(alloc: Global, own: AskedBody<'_>, shared: AskedBody<'_>, out: &mut Text) -> M<()> {
    let all = GivenReplies {
        replies: &[],
        empty: MOST_REPLIES,
    };
    let run = stepped(alloc, shared, all, 7)?;
    let (asked, pushed) = (run.asked, push_plain(alloc, own, &run.last_words, out));
    drop(run);
    pushed?;
    let is_same = are_same(alloc, own, 0)?
        && are_same(alloc, shared, 0)?
        && are_same(alloc, shared, 1)?
        && are_same(alloc, shared, asked)?;
    out.push(judged(is_same))
}

// What a body leaves uncaught and sends, on no replies, and these last words.
fn push_plain(alloc: Global, body: AskedBody<'_>, last_words: &Text, out: &mut Text) -> M<()> {
    let none = Replies::new(alloc);
    let plained = plain(alloc, body, &none);
    drop(none);
    let plained = plained?;
    let pushed = plained.push(alloc, out);
    drop(plained);
    pushed?;
    push_hex(alloc, out, b" ", last_words)
}

fn judged(is_same: bool) -> &'static [u8] {
    if is_same { b" same" } else { b" differs" }
}

// Whether a body comes to the same by steps as by the plain evaluator, on so many empty replies.
fn are_same(alloc: Global, body: AskedBody<'_>, count: u32) -> M<bool> {
    let mut replies = Replies::new(alloc);
    for _ in 0..count {
        replies.push(Reply::Ok(Text::empty(alloc)))?;
    }
    let same = is_same(alloc, body, &replies);
    drop(replies);
    same
}

fn is_same(alloc: Global, body: AskedBody<'_>, replies: &Replies) -> M<bool> {
    let plained = plain(alloc, body, replies)?;
    let same = is_same_in_slices(alloc, body, replies.as_slice(), &plained.outcome);
    drop(plained);
    same
}

fn is_same_in_slices(
    alloc: Global,
    body: AskedBody<'_>,
    replies: &[Reply],
    outcome: &Text,
) -> M<bool> {
    for slice in SLICES {
        let run = stepped(alloc, body, GivenReplies { replies, empty: 0 }, slice)?;
        let is_same = run.outcome.as_bytes() == outcome.as_bytes();
        drop(run);
        if !is_same {
            return Ok(false);
        }
    }
    Ok(true)
}

fn replies(alloc: Global, body: AskedBody<'_>, words: &[&str], out: &mut Text) -> M<bool> {
    let Some(replies) = read_replies(alloc, words)? else {
        return Ok(false);
    };
    let pushed = push_replies(alloc, body, &replies, out);
    drop(replies);
    pushed?;
    Ok(true)
}

fn push_replies(alloc: Global, body: AskedBody<'_>, replies: &Replies, out: &mut Text) -> M<()> {
    let given = GivenReplies {
        replies: replies.as_slice(),
        empty: 0,
    };
    let run = stepped(alloc, body, given, 1)?;
    let calls = out.push(run.calls.as_bytes());
    let end = out.push(run.end.as_bytes());
    drop(run);
    calls?;
    end?;
    out.push(judged(is_same(alloc, body, replies)?))
}

fn connection(
    alloc: Global,
    rule: &Rule,
    body: AskedBody<'_>,
    words: &[&str],
    out: &mut Text,
) -> M<bool> {
    let handler = Handler {
        name: &rule.name,
        procs: body.procs,
        body: body.tree,
    };
    let Some(replies) = read_replies(alloc, words)? else {
        return Ok(false);
    };
    let ran = run_suspended(alloc, handler, BUDGET, replies.as_slice(), out);
    drop(replies);
    ran?;
    Ok(true)
}

fn script(alloc: Global, body: AskedBody<'_>, out: &mut Text) -> M<()> {
    let body = AskedBody {
        budget: LONG_BUDGET,
        ..body
    };
    let none = GivenReplies {
        replies: &[],
        empty: 0,
    };
    let run = stepped(alloc, body, none, LONG_BUDGET)?;
    let pushed = out.push(run.end.as_bytes());
    drop(run);
    pushed
}
