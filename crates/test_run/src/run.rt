// A run of a test.

ghost use Rattle.std.specs.Prelude.{◌≡◌, IfOk, None, flat_map};
ghost use Rattle.test_run.specs.Stand.{stand, start_known};
ghost use Rattle.test_run.specs.Told.{told};

use crate::known::Known;
use crate::told::add_notes;
use core_events::{Note, Notes};
use px_bytes::{M, Seq};
use std::alloc::Global;
use test_past::RunEntry;

/// A run of a test: the core, what the test said of its peers, and what happened so far.
#[derive(Drop)]
pub struct TestRun<C> {
    pub(crate) alloc: Global,
    pub(crate) core: C,
    pub(crate) known: Known,
    pub(crate) entries: Seq<RunEntry>,
    /// The notes of the event that is given.
    pub(crate) notes: Notes,
}

impl<C: Drop> TestRun<C> {
    /// Nothing happened to a core yet, but that these notes of its start were given.
    pub fn new(alloc: Global, core: C, notes: &[Note]) -> M<TestRun<C>>
        ensures { IfOk result (λ run. stand run
            ≡ record { core = core; known = start_known; entries = flat_map told notes.now }) }
    {
        let mut run = TestRun {
            alloc,
            core,
            known: Known {
                came: Seq::new(alloc),
                amounts: Seq::new(alloc),
                meets: Seq::new(alloc),
                sending: None,
            },
            entries: Seq::new(alloc),
            notes: Notes::new(alloc),
        };
        match add_notes(alloc, &mut run.entries, notes) {
            Ok(()) => Ok(run),
            Err(why) => {
                drop(run);
                Err(why)
            }
        }
    }

    /// What the test said of its peers.
    pub fn known(&self) -> &Known
        ensures { result.now ≡ (stand self.now).known }
    {
        &self.known
    }

    /// What happened so far.
    pub fn entries(&self) -> &[RunEntry]
        ensures { result.now ≡ (stand self.now).entries }
    {
        self.entries.as_slice()
    }
}
