// The scripts of links.

use px_bytes::{Addr, M, read_decimal};
use px_outside::{ConnectAnswer, MemLink, MemRead, MemReads, MemScript, MemWrite, MemWrites};
use questions::Question;

/// The links up to the next `/`.
pub fn links(question: &mut Question<'_>) -> M<Vec<MemLink>> {
    let mut links = Vec::new(question.alloc);
    for _ in 0..question.before("/") {
        let word = question.word();
        links.push(link_of(question, word)?)?;
    }
    Ok(links)
}

fn link_of(question: &mut Question<'_>, word: &str) -> M<MemLink> {
    let alloc = question.alloc;
    let mut script = MemScript {
        slot: None,
        from: Addr { ip: 0, port: 0 },
        connect: ConnectAnswer::NotYet,
        reads: MemReads::new(alloc),
        writes: MemWrites::new(alloc),
    };
    for part in word.split(';') {
        add_part(question, &mut script, part)?;
    }
    Ok(MemLink::new(alloc, script))
}

fn add_part(question: &mut Question<'_>, script: &mut MemScript, part: &str) -> M<()> {
    match part.split_once('=') {
        Some(("r", items)) => add_reads(question, &mut script.reads, items),
        Some(("w", items)) => add_writes(question, &mut script.writes, items),
        _ => {
            script.connect = connect_of(question, part);
            Ok(())
        }
    }
}

fn connect_of(question: &mut Question<'_>, word: &str) -> ConnectAnswer {
    match word {
        "connected" => ConnectAnswer::Connected,
        "refused" => ConnectAnswer::Refused,
        "notyet" => ConnectAnswer::NotYet,
        _ => {
            question.unknown();
            ConnectAnswer::NotYet
        }
    }
}

fn add_reads(question: &mut Question<'_>, reads: &mut MemReads, items: &str) -> M<()> {
    for item in items.split(',') {
        let read = read_of(question, item);
        reads.push(read)?;
    }
    Ok(())
}

fn read_of(question: &mut Question<'_>, item: &str) -> MemRead {
    match item {
        "n" => MemRead::NotYet,
        "e" => MemRead::End,
        "x" => MemRead::Reset,
        _ => match item.strip_prefix('b') {
            Some(bytes) => MemRead::Bytes(question.text_of(bytes)),
            None => {
                question.unknown();
                MemRead::NotYet
            }
        },
    }
}

fn add_writes(question: &mut Question<'_>, writes: &mut MemWrites, items: &str) -> M<()> {
    for item in items.split(',') {
        let write = write_of(question, item);
        writes.push(write)?;
    }
    Ok(())
}

fn write_of(question: &mut Question<'_>, item: &str) -> MemWrite {
    match item {
        "n" => MemWrite::NotYet,
        "v" => MemWrite::Never,
        "x" => MemWrite::Reset,
        _ => MemWrite::Upto(count_of(question, item)),
    }
}

/// The most bytes that a script's write may take.
const MOST: u64 = 1_000_000;

fn count_of(question: &mut Question<'_>, item: &str) -> usize {
    let digits = item.strip_prefix('u').unwrap_or("");
    match read_decimal(digits.as_bytes(), MOST) {
        Some(count) => count as usize,
        None => {
            question.unknown();
            0
        }
    }
}
