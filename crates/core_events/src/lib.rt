//! The door of the core: the events that move it, the notes that come of them, where the ends of a
//! connection stand, and the questions that a core answers.
#![tactic(auto)]

mod bad_event;
mod edges;
mod event;
mod event_kind;
mod face;
mod input;
mod note;

pub use bad_event::BadEvent;
pub use edges::{Edge, EdgeState, Edges};
pub use event::Event;
pub use event_kind::EventKind;
pub use face::EventCore;
pub use input::Input;
pub use note::{Cause, CutReason, Note, Notes};
