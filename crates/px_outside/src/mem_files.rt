// Files in memory.

ghost use Rattle.std.specs.Prelude.{◌≡◌, ◌≤◌, ◌↔◌, Some, None, option_map, IfOk, IsErrOf};
ghost use Rattle.px_outside.specs.MemFiles.{FilesInMemory, contents_of, next_read, after_read};

use crate::{Counts, Failed, Files};
use px_bytes::{Pairs, Text};
use std::alloc::Global;
use std::marker::Model;

/// Files in memory, of which reads with given numbers fail.
#[derive(Drop)]
pub struct MemFiles {
    files: Pairs,
    fails: Counts,
    calls: u64,
    faults: u64,
}

impl Model for MemFiles {
    ghost Value = { FilesInMemory };

    ghost view = { λ m.
        record { files = m.files; fails = m.fails; calls = m.calls; faults = m.faults } };
}

impl MemFiles {
    /// Names with their contents, and the numbers of the reads that fail, the first being 1.
    pub fn new(files: Pairs, fails: Counts) -> MemFiles
        ensures { result ≡ record { files = files; fails = fails; calls = 0; faults = 0 } }
    {
        MemFiles {
            files,
            fails,
            calls: 0,
            faults: 0,
        }
    }
}

impl Files for MemFiles {
    ghost told = { λ m name. contents_of m.files name };

    ghost faults = { λ m. m.faults };

    fn read(&mut self, alloc: Global, name: &[u8]) -> Result<Text, Failed>
        ensures gives { IfOk result (λ text. next_read self.old name.now ≡ Some text) }
        ensures fails { IsErrOf result Failed.Failed ↔ (next_read self.old name.now ≡ None) }
        ensures faults_never_fall { self.old.faults ≤ self.new.faults }
        ensures after { self.new ≡ after_read self.old name.now }
    {
        self.calls = self.calls.saturating_add(1);
        let fails = self.fails.as_slice().contains(&self.calls);
        match contents_of(&self.files, name) {
            Some(contents) if !fails => Ok(Text::new(alloc, contents.as_bytes())?),
            _ => {
                self.faults = self.faults.saturating_add(1);
                Err(Failed::Failed)
            }
        }
    }
}

// The contents of the first file of a name.
fn contents_of<'a>(files: &'a Pairs, name: &[u8]) -> Option<&'a Text>
    ensures { option_map (λ text. text.now) result ≡ contents_of files.now name.now }
{
    for file in files.as_slice() {
        if file.0.as_bytes() == name {
            return Some(&file.1);
        }
    }
    None
}
