//! Scripts as whole trees: bodies and conditions of control commands are read from their bytes in
//! the source.
#![tactic(auto)]

mod bodies;
mod branches;
mod case_list;
mod commands;
mod compile_fault;
mod compiler;
mod conditions;
mod controls;
mod fits;
mod forms;
mod if_form;
mod notes;
mod opened;
mod places;
mod reads;
mod switches;
mod texts;
mod words;
mod zip;

pub use compile_fault::CompileFault;
pub use compiler::{compile, compile_body, compile_expression, examine_body};
