// What a move is given.

use std::alloc::Global;
use tcl_trees::Procs;
use tcl_vars::Vars;

/// What stays over a body: the static variables where they are only read, what the host only reads,
/// and the procedures.
#[derive(Clone, Copy)]
pub struct Context<'a, E> {
    pub alloc: Global,
    pub statics: Option<&'a Vars>,
    pub env: &'a E,
    pub procs: &'a Procs,
}
