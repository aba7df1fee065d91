//! A journal read as a value: what each of its lines tells, read exactly.
#![tactic(auto)]

mod choices;
mod cut;
mod head;
mod history;
mod journal;
mod laws;
mod line;
mod log;
mod note;
mod note_verb;
mod notes;
mod reader;
mod texts;
mod words;

pub use journal::{JournalLine, JournalLines, LineFault, read_journal};
pub use laws::{fault_has_no_journal, written_journal_is_read};
pub use note::read_note;
pub use note_verb::NoteVerb;
pub use reader::JournalReader;
