//! Answers questions about data groups, pools, tables, the store, messages and host commands, one a
//! line. `README.md` has the form of the lines.
#![tactic(auto)]

mod bodies;
mod commands;
mod cookies;
mod costs;
mod fields;
mod groups;
mod heads;
mod network;
mod pool_calls;
mod record_calls;
mod store;
mod table_calls;
mod units;

use questions::Question;
use std::alloc::Global;
use std::io::{self, BufRead, BufReader, BufWriter, Write};

fn main(rt: HostRuntime) -> io::Result<()> {
    let alloc = rt.alloc();
    let mut out = BufWriter::new(alloc, io::writer(&rt))?;
    answer_lines(alloc, BufReader::new(alloc, rt.reader())?, &mut out)?;
    out.flush()
}

fn answer_lines<R: BufRead + Drop, W: Write>(
    alloc: Global,
    lines: R,
    out: &mut W,
) -> io::Result<()> {
    for line in lines.lines(alloc) {
        answer_line(alloc, &line?, out)?;
    }
    Ok(())
}

// Writes the answer to a line.
fn answer_line<W: Write>(alloc: Global, line: &str, out: &mut W) -> io::Result<()> {
    let words: Vec<&str> = line.split(' ').collect(alloc)?;
    let mut question = Question::new(alloc, &words);
    answer(&mut question);
    question.write_answer(out)
}

fn answer(question: &mut Question<'_>) {
    match question.word() {
        "pool" => pool_calls::answer(question),
        "priority_pool" => pool_calls::answer_priorities(question),
        "store" => store::answer(question),
        "table" => table_calls::answer(question),
        "dump" => table_calls::dump_answer(question),
        "check_words" => table_calls::check_answer(question),
        "records" => record_calls::answer(question),
        "cost" => costs::answer(question),
        "network" => network::answer(question),
        call => http_answer(question, call),
    }
}

// The calls on messages.
fn http_answer(question: &mut Question<'_>, call: &str) {
    match call {
        "http_commands" | "http_detach" => commands::answer(question, call),
        "fields" => fields::answer(question),
        "cookies" => cookies::answer(question),
        "print_bigip" => cookies::print_answer(question),
        "read_bigip" => cookies::read_answer(question),
        "next_unit" => units::next_answer(question),
        "units" => units::answer(question),
        _ => head_answer(question, call),
    }
}

// The calls on heads.
fn head_answer(question: &mut Question<'_>, call: &str) {
    match call {
        "request" | "write_request" | "request_body" => heads::request(question, call),
        "response" | "write_response" => heads::response(question, call),
        "response_body" => bodies::response(question),
        "passed_request" => heads::pass_request(question),
        "passed_response" => heads::pass_response(question),
        "received_request" => heads::receive_request(question),
        "received_response" => heads::receive_response(question),
        _ => groups::answer(question, call),
    }
}
