//! Lists in texts: read, placed and written.
#![tactic(auto)]

mod cut;
mod element;
mod escape;
mod fault;
mod form;
mod laws;
mod place;
mod read;
mod rest;
mod value;
mod write;

pub use fault::ListFault;
pub use form::stands_bare;
pub use laws::{
    braces_keep_bytes, places_hold_values, reads_exactly_lists, white_space_moves,
    written_lists_join, written_reads_back,
};
pub use place::{ElementPlace, ElementPlaces};
pub use read::{places, split};
pub use write::join_list;
