// The priority of a handler.

ghost use Rattle.std.specs.Prelude.{◌≡◌, option_map};
ghost use Rattle.rule_loader.specs.Events.{number_in_range, priority_of, word_priority};
ghost use Rattle.rule_loader.specs.Faults.{after_faults};
ghost use Rattle.rule_loader.specs.Loading.{priority_faults, stated_faults};
ghost use Rattle.tcl_words.specs.View.{word_view};

use crate::load_fault::LoadKind;
use crate::told::Told;
use px_bytes::read_whole;
use tcl_words::Word;

/// The priority of a handler that states none.
const USUAL: u16 = 500;

// A whole number from 1 to 1,000.
fn number_in_range(text: &[u8]) -> Option<u16>
    ensures { result ≡ number_in_range text.now }
{
    match read_whole(text) {
        Some(number) if 1 <= number && number <= 1000 => Some(number as u16),
        _ => None,
    }
}

// The priority that a word is.
fn word_priority(word: &Word) -> Option<u16>
    ensures { result ≡ word_priority (word_view word.now) }
{
    match &word.raw {
        Some(raw) => number_in_range(raw.as_bytes()),
        None => None,
    }
}

impl Told {
    // The priority that the word behind `priority` is.
    fn stated(&mut self, word: &Word) -> Option<u16>
        ensures priority { result ≡ word_priority (word_view word.now) }
        ensures told { self.new ≡ after_faults (stated_faults (word_view word.now)) self.old }
    {
        match word_priority(word) {
            Some(priority) => Some(priority),
            None => {
                self.note(LoadKind::BadPriority, word.span.start);
                None
            }
        }
    }

    /// The priority that the word behind `priority` is, and the usual one where there is none.
    pub(crate) fn priority(&mut self, word: Option<&Word>) -> Option<u16>
        ensures priority { result ≡ priority_of (option_map (λ w. word_view w.now) word.entry) }
        ensures told { self.new
            ≡ after_faults (priority_faults (option_map (λ w. word_view w.now) word.entry)) self.old }
    {
        match word {
            Some(word) => self.stated(word),
            None => Some(USUAL),
        }
    }
}
