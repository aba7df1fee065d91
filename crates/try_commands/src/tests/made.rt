// Words, files and places to write to, in memory.

use super::texts::FILES;
use px_bytes::{M, Pairs, Text, Texts};
use px_outside::{Counts, MemFiles, MemSink};
use std::alloc::Global;

/// The numbers of the calls that fail, the first of each kind being 1.
#[derive(Clone, Copy)]
pub(super) struct Fails {
    pub(super) read: Option<u64>,
    pub(super) write: Option<u64>,
    pub(super) wait: Option<u64>,
}

/// No call fails.
pub(super) const NOTHING: Fails = Fails {
    read: None,
    write: None,
    wait: None,
};

pub(super) const FIRST_READ: Fails = Fails {
    read: Some(1),
    ..NOTHING
};

pub(super) const SECOND_READ: Fails = Fails {
    read: Some(2),
    ..NOTHING
};

pub(super) const FIRST_WRITE: Fails = Fails {
    write: Some(1),
    ..NOTHING
};

pub(super) const SECOND_WRITE: Fails = Fails {
    write: Some(2),
    ..NOTHING
};

pub(super) const FIRST_WAIT: Fails = Fails {
    wait: Some(1),
    ..NOTHING
};

pub(super) const SECOND_WAIT: Fails = Fails {
    wait: Some(2),
    ..NOTHING
};

/// The words of a command, the files that it reads, and what it writes: its output or its journal.
#[derive(Drop)]
pub(super) struct Made {
    pub(super) words: Texts,
    pub(super) files: MemFiles,
    pub(super) sink: MemSink,
}

impl Made {
    /// The words of a line, and the files of `texts` with one more, named `journal`.
    pub(super) fn new(alloc: Global, line: &str, journal: &[u8], fails: Fails) -> M<Made> {
        let words = words_of(alloc, line)?;
        let files = files(alloc, journal, fails.read)?;
        let sink = MemSink::new(alloc, calls(alloc, fails.write)?);
        Ok(Made { words, files, sink })
    }

    pub(super) fn written(&self) -> &[u8] {
        self.sink.written().as_bytes()
    }
}

fn words_of(alloc: Global, line: &str) -> M<Texts> {
    let mut words = Texts::new(alloc);
    for word in line.split(' ') {
        words.push(Text::new(alloc, word.as_bytes())?)?;
    }
    Ok(words)
}

/// The number of the call that fails, where one does.
pub(super) fn calls(alloc: Global, fails: Option<u64>) -> M<Counts> {
    let mut calls = Counts::new(alloc);
    if let Some(number) = fails {
        calls.push(number)?;
    }
    Ok(calls)
}

fn files(alloc: Global, journal: &[u8], fails: Option<u64>) -> M<MemFiles> {
    let mut files = Pairs::new(alloc);
    files.push(file(alloc, "journal", journal)?)?;
    for (name, contents) in FILES.iter() {
        files.push(file(alloc, name, contents)?)?;
    }
    Ok(MemFiles::new(files, calls(alloc, fails)?))
}

fn file(alloc: Global, name: &str, contents: &[u8]) -> M<(Text, Text)> {
    Ok((
        Text::new(alloc, name.as_bytes())?,
        Text::new(alloc, contents)?,
    ))
}
