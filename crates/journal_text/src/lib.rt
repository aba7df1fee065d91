//! The lines of a schedule and of a journal: which event each spells, read exactly, and written so
//! that it reads back; and the lines of notes.
#![tactic(auto)]

mod fields;
mod laws;
mod line;
mod line_kind;
mod note;
mod verb;
mod write;

pub use laws::{fault_spells_none, one_event, written_is_read};
pub use line::{LONGEST_LINE, line_event};
pub use line_kind::LineKind;
pub use note::{write_note, write_notes};
pub use verb::EventVerb;
pub use write::write_event;
