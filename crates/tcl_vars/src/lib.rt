//! The variables of a script, and how a word names one.
#![tactic(auto)]

mod laws;
mod level;
mod name;
mod table;
mod vars;

pub use laws::{
    calls_have_their_own, outer_levels_stay, set_is_read, set_keeps_others, unset_is_gone,
    unset_keeps_others,
};
pub use name::{Name, name_of};
pub use vars::Vars;
