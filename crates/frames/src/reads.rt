// What a move reads.

use std::alloc::Global;
use tcl_vars::Vars;

/// The static variables, where they are only read, and the variables.
#[derive(Clone, Copy)]
pub struct Reads<'a> {
    pub alloc: Global,
    pub statics: Option<&'a Vars>,
    pub vars: &'a Vars,
}
