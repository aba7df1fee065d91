//! Runs the bodies of rules by steps and by the plain evaluator, a rule a line. `README.md` has the form of
//! the lines.
#![tactic(auto)]

mod body;
mod cases;
mod echo;
mod outcome;
mod plain;
mod read;
mod run;
mod stepped;
mod suspended;

use cases::MachineQuestion;
use px_bytes::{M, Text};
use std::alloc::Global;
use std::io::{self, BufRead, BufReader, BufWriter, ErrorKind, Write};

fn main(rt: HostRuntime) -> io::Result<()> {
    let alloc = rt.alloc();
    let mut out = BufWriter::new(alloc, io::writer(&rt))?;
    for line in BufReader::new(alloc, rt.reader())?.lines(alloc) {
        let line = line?;
        let Ok(answer) = answer_line(alloc, &line) else {
            return Err(io::Error::from(ErrorKind::OutOfMemory));
        };
        out.write_all(answer.as_bytes())?;
        out.write_all(b"\n")?;
    }
    out.flush()
}

// The answer to a line, which is `unknown` where the line asks nothing known.
fn answer_line(alloc: Global, line: &str) -> M<Text> {
    let mut out = Text::empty(alloc);
    match push_answer(alloc, line, &mut out) {
        Ok(()) => Ok(out),
        Err(memory) => {
            drop(out);
            Err(memory)
        }
    }
}

fn push_answer(alloc: Global, line: &str, out: &mut Text) -> M<()> {
    let words: Vec<&str> = line.split(' ').collect(alloc)?;
    let answered = answer(alloc, &words, out);
    drop(words);
    if answered? {
        Ok(())
    } else {
        out.push(b"unknown")
    }
}

fn answer(alloc: Global, words: &[&str], out: &mut Text) -> M<bool> {
    match words {
        ["case", rule] => cases::answer(alloc, MachineQuestion::Case, rule, out),
        ["replies", rule, replies @ ..] => {
            cases::answer(alloc, MachineQuestion::Replies(replies), rule, out)
        }
        ["connection", rule, replies @ ..] => {
            cases::answer(alloc, MachineQuestion::Connection(replies), rule, out)
        }
        ["body", script] => cases::answer(alloc, MachineQuestion::Script, script, out),
        _ => Ok(false),
    }
}
