// The event of a handler.

ghost use Rattle.std.specs.Prelude.{◌≡◌};
ghost use Rattle.rule_loader.specs.Events.{event_named, event_of};
ghost use Rattle.rule_loader.specs.Faults.{after_faults};
ghost use Rattle.rule_loader.specs.Loading.{event_faults};
ghost use Rattle.tcl_words.specs.View.{word_view};

use crate::load_fault::LoadKind;
use crate::told::Told;
use event_order::{EventName, read_event};
use tcl_words::Word;

// The event of this name.
fn event_named(name: &[u8]) -> Option<EventName>
    ensures { result ≡ event_named name.now }
{
    read_event(name)
}

// The event that a word names.
fn event_of(word: &Word) -> Option<EventName>
    ensures { result ≡ event_of (word_view word.now) }
{
    match &word.raw {
        Some(raw) => event_named(raw.as_bytes()),
        None => None,
    }
}

impl Told {
    /// The event that the word behind `when` names.
    pub(crate) fn event(&mut self, word: &Word) -> Option<EventName>
        ensures event { result ≡ event_of (word_view word.now) }
        ensures told { self.new ≡ after_faults (event_faults (word_view word.now)) self.old }
    {
        match event_of(word) {
            Some(event) => Some(event),
            None => {
                self.note(LoadKind::NoEvent, word.span.start);
                None
            }
        }
    }
}
