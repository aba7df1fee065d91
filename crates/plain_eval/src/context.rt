// What an evaluation is given.

use std::alloc::Global;
use tcl_trees::Procs;
use tcl_vars::Vars;

/// How many calls, and how many expressions that are read when they run, may still stand inside one
/// another.
#[derive(Clone, Copy)]
pub(crate) struct Room {
    pub(crate) calls: usize,
    pub(crate) expressions: usize,
}

/// What stays over an evaluation: the static variables where they are only read, what the host
/// only reads, the procedures, and how much may still nest.
#[derive(Clone, Copy)]
pub(crate) struct Context<'a, E> {
    pub(crate) alloc: Global,
    pub(crate) statics: Option<&'a Vars>,
    pub(crate) env: &'a E,
    pub(crate) procs: &'a Procs,
    pub(crate) room: Room,
}
