//! The Tcl commands on variables.
#![tactic(auto)]

mod append;
mod array;
mod array_reading;
mod array_setting;
mod assigning;
mod fault;
mod incr;
mod info;
mod lappend;
mod reading;
mod set;
mod unset;

pub use append::append_command;
pub use array::array_command;
pub use assigning::{assign, assign_named, assign_row};
pub use incr::incr_command;
pub use info::info_command;
pub use lappend::lappend_command;
pub use reading::{read, value};
pub use set::set_command;
pub use unset::unset_command;
