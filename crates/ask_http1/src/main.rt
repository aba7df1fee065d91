//! Answers how `http1` of the toolchain reads streams of messages, one question a line. `README.md`
//! has the form of the lines.
#![tactic(auto)]

mod held;
mod requests;
mod responses;

use questions::Question;
use std::alloc::Global;
use std::io::{self, BufRead, BufReader, BufWriter, Write};

fn main(rt: HostRuntime) -> io::Result<()> {
    let alloc = rt.alloc();
    let mut out = BufWriter::new(alloc, io::writer(&rt))?;
    answer_lines(alloc, BufReader::new(alloc, rt.reader())?, &mut out)?;
    out.flush()
}

// Each answer is written out at once, so that one who asks can wait for it.
fn answer_lines<R: BufRead + Drop, W: Write>(
    alloc: Global,
    lines: R,
    out: &mut W,
) -> io::Result<()> {
    for line in lines.lines(alloc) {
        answer_line(alloc, &line?, out)?;
        out.flush()?;
    }
    Ok(())
}

// Writes the answer to a line.
fn answer_line<W: Write>(alloc: Global, line: &str, out: &mut W) -> io::Result<()> {
    let words: Vec<&str> = line.split(' ').collect(alloc)?;
    let mut question = Question::new(alloc, &words);
    match question.word() {
        "requests" => requests::answer(&mut question),
        "responses" => responses::answer(&mut question),
        _ => question.unknown(),
    }
    question.write_answer(out)
}
