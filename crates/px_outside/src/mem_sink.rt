// A sink in memory.

ghost use Rattle.std.specs.Prelude.{◌≡◌, ◌≤◌, ◌↔◌, [], Some, length, IsTrue, is_ok, IfOk, IsErrOf};
ghost use Rattle.px_outside.specs.MemSink.{SinkInMemory, next_fails, after_write};

use crate::{Counts, Failed, Sink};
use px_bytes::Text;
use std::alloc::Global;
use std::marker::Model;

/// A sink in memory, of which writes with given numbers fail.
#[derive(Drop)]
pub struct MemSink {
    written: Text,
    fails: Counts,
    calls: u64,
    faults: u64,
}

impl Model for MemSink {
    ghost Value = { SinkInMemory };

    ghost view = { λ m.
        record { written = m.written; fails = m.fails; calls = m.calls; faults = m.faults } };
}

impl MemSink {
    /// An empty sink, and the numbers of the writes that fail, the first being 1.
    pub fn new(alloc: Global, fails: Counts) -> MemSink
        ensures { result ≡ record { written = []; fails = fails; calls = 0; faults = 0 } }
    {
        MemSink {
            written: Text::empty(alloc),
            fails,
            calls: 0,
            faults: 0,
        }
    }

    /// All that was written so far.
    pub fn written(&self) -> &Text
        ensures { result.now ≡ self.now.written }
    {
        &self.written
    }
}

impl Sink for MemSink {
    ghost written = { λ m. Some m.written };

    ghost faults = { λ m. m.faults };

    fn write(&mut self, bytes: &[u8]) -> Result<usize, Failed>
        ensures takes_all { IfOk result (λ taken. taken ≡ length bytes.now) }
        ensures fails { IsErrOf result Failed.Failed ↔ IsTrue (next_fails self.old) }
        ensures faults_never_fall { self.old.faults ≤ self.new.faults }
        ensures after { self.new ≡ after_write self.old bytes.now (is_ok result) }
    {
        self.calls = self.calls.saturating_add(1);
        if self.fails.as_slice().contains(&self.calls) {
            self.faults = self.faults.saturating_add(1);
            return Err(Failed::Failed);
        }
        self.written.push(bytes)?;
        Ok(bytes.len())
    }
}
