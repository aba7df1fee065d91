// Places to write to. Nothing is told of what was written.

ghost use Rattle.std.specs.Prelude.{◌≡◌, None, IfOk, false};

use px_outside::{Failed, Sink};
use std::fs::File;
use std::io::{self, Write};
use std::rt;

/// Standard output.
#[derive(Drop)]
pub struct StdoutSink<R: Print + Drop> {
    rt: R,
    faults: u64,
}

impl<R: Print + Drop> StdoutSink<R> {
    pub fn new(rt: R) -> StdoutSink<R>
        ensures { result.faults ≡ 0 }
    {
        StdoutSink { rt, faults: 0 }
    }
}

impl<R: Print + Drop> Sink for StdoutSink<R> {
    ghost written = { λ sink. None };

    ghost faults = { λ sink. sink.faults };

    fn write(&mut self, bytes: &[u8]) -> Result<usize, Failed> {
        match io::writer(&self.rt).write(bytes) {
            Ok(taken) if taken > 0 || bytes.is_empty() => Ok(taken),
            _ => {
                self.faults = self.faults.saturating_add(1);
                Err(Failed::Failed)
            }
        }
    }
}

/// A file that is written from its start.
#[derive(Drop)]
pub struct FileSink<R: rt::Files + Drop> {
    file: R::File,
    faults: u64,
}

impl<R: rt::Files + Drop> FileSink<R> {
    /// Makes the file of this path, and empties one that is there. Failed where the system refuses.
    pub fn create(rt: &R, name: &[u8]) -> Result<FileSink<R>, Failed>
        ensures { IfOk result (λ sink. sink.faults ≡ 0) }
    {
        let Ok(name) = std::str::from_utf8(name) else {
            return Err(Failed::Failed);
        };
        match File::create(rt, name) {
            Ok(file) => Ok(FileSink { file, faults: 0 }),
            Err(_) => Err(Failed::Failed),
        }
    }
}

impl<R: rt::Files + Drop> Sink for FileSink<R> {
    ghost written = { λ sink. None };

    ghost faults = { λ sink. sink.faults };

    fn write(&mut self, bytes: &[u8]) -> Result<usize, Failed> {
        match self.file.write(bytes) {
            Ok(taken) if taken > 0 || bytes.is_empty() => Ok(taken),
            _ => {
                self.faults = self.faults.saturating_add(1);
                Err(Failed::Failed)
            }
        }
    }
}

/// Takes all, and keeps nothing.
#[derive(Drop)]
pub struct NoSink;

impl Sink for NoSink {
    ghost written = { λ sink. None };

    ghost faults = { λ sink. 0 };

    fn keeps(&self) -> bool
        ensures { result ≡ false }
    {
        false
    }

    fn write(&mut self, bytes: &[u8]) -> Result<usize, Failed> {
        Ok(bytes.len())
    }
}
