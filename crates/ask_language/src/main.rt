//! Answers questions about texts, scripts, lists and expressions, one a line. `README.md` has the
//! form of the lines.
#![tactic(auto)]

mod bytes;
mod commands;
mod compiled;
mod evaluated;
mod expressions;
mod host;
mod lists;
mod numbers;
mod operators;
mod rules;
mod script;
mod variables;
mod words;

use questions::Question;
use std::alloc::Global;
use std::io::{self, BufRead, BufReader, BufWriter, Write};

fn main(rt: HostRuntime) -> io::Result<()> {
    let alloc = rt.alloc();
    let mut out = BufWriter::new(alloc, io::writer(&rt))?;
    answer_lines(alloc, BufReader::new(alloc, rt.reader())?, &mut out)?;
    out.flush()
}

fn answer_lines<R: BufRead + Drop, W: Write>(
    alloc: Global,
    lines: R,
    out: &mut W,
) -> io::Result<()> {
    for line in lines.lines(alloc) {
        answer_line(alloc, &line?, out)?;
    }
    Ok(())
}

// Writes the answer to a line.
fn answer_line<W: Write>(alloc: Global, line: &str, out: &mut W) -> io::Result<()> {
    let words: Vec<&str> = line.split(' ').collect(alloc)?;
    let mut question = Question::new(alloc, &words);
    answer(&mut question);
    question.write_answer(out)
}

// Each file of answers has calls of one crate or two.
fn answer(question: &mut Question<'_>) {
    match question.word() {
        "apply1" => operators::one_answer(question),
        "apply2" => operators::two_answer(question),
        "pure" => commands::answer(question),
        "pure_long" => commands::long_answer(question),
        "append" => variables::answer(question),
        call => text_answer(question, call),
    }
}

// The calls on scripts, rules and expressions.
fn text_answer(question: &mut Question<'_>, call: &str) {
    match call {
        "parse" => words::answer(question),
        "compile" => compiled::answer(question),
        "expr" => expressions::answer(question),
        "value" | "body" | "run" => evaluated::answer(question, call),
        "load" | "allowed" | "read_event" => rules::answer(question, call),
        "split" | "places" | "join_list" => lists::answer(question, call),
        _ => bytes_answer(question, call),
    }
}

// The calls of px_bytes.
fn bytes_answer(question: &mut Question<'_>, call: &str) {
    match call {
        "glob" | "same_name" => numbers::truth_answer(question, call),
        "read_whole" | "print_whole" | "read_net" => numbers::answer(question, call),
        _ => bytes::answer(question, call),
    }
}
