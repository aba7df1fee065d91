// Lines of the journal that wait to be written.

ghost use Rattle.std.specs.Prelude.{◌≡◌, ◌≤◌, IfErr, OnErr, OnOk, []};
ghost use Rattle.px_outside.specs.Outside.{told_more, AddsPrefix};
ghost use Rattle.journal_text.specs.Line.{event_line};
ghost use Rattle.journal_text.specs.Notes.{note_lines};
ghost use Rattle.serve_loop.specs.Events.{Tells};
ghost use Rattle.serve_loop.specs.Faults.{FromSink};

use crate::ServeFault;
use core_events::{Event, Note};
use journal_text::{write_event, write_notes};
use px_bytes::{M, Text};
use px_outside::{Failed, Sink, write_all};
use std::alloc::Global;

/// The lines that wait, where anything is kept of them.
#[derive(Drop)]
pub struct Journal {
    alloc: Global,
    pub text: Text,
    pub recording: bool,
}

impl Journal {
    pub fn new(alloc: Global) -> Journal
        ensures { result.text ≡ [] }
    {
        Journal {
            alloc,
            text: Text::empty(alloc),
            recording: false,
        }
    }

    /// Writes down an event.
    pub fn event(&mut self, event: &Event) -> M<()>
        ensures ok { OnOk result (Tells self.old self.new (event_line event.now)) }
        ensures err { OnErr result (self.new ≡ self.old) }
    {
        if self.recording {
            self.text.push(write_event(self.alloc, event)?.as_bytes())?;
        }
        Ok(())
    }

    /// Writes down notes.
    pub fn notes(&mut self, notes: &[Note]) -> M<()>
        ensures ok { OnOk result (Tells self.old self.new (note_lines notes.now)) }
        ensures err { OnErr result (self.new ≡ self.old) }
    {
        if self.recording {
            self.text.push(write_notes(self.alloc, notes)?.as_bytes())?;
        }
        Ok(())
    }

    /// Writes the lines that wait.
    pub fn flush<K: Sink>(&mut self, sink: &mut K) -> Result<(), ServeFault>
        ensures written { OnOk result
            (K.written sink.new ≡ told_more (K.written sink.old) self.old.text) }
        ensures none_waits { OnOk result (self.new.text ≡ []) }
        ensures front { OnErr result
            (AddsPrefix self.old.text (K.written sink.old) (K.written sink.new)) }
        ensures fails { IfErr result (FromSink (K.faults sink.old) (K.faults sink.new)) }
        ensures faults_never_fall { K.faults sink.old ≤ K.faults sink.new }
    {
        match write_all(sink, self.text.as_bytes()) {
            Err(Failed::Failed) => Err(ServeFault::Write),
            Err(Failed::Memory) => Err(ServeFault::Memory),
            Ok(()) => {
                self.text = Text::empty(self.alloc);
                Ok(())
            }
        }
    }
}
