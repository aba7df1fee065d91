// What is run.

use tcl_trees::{Node, Procs};

/// A body with the procedures of its rule, whether all commands of the host are shared calls, the rule's text,
/// whose words may name variables, and the budget.
#[derive(Clone, Copy)]
pub struct AskedBody<'a> {
    pub tree: &'a Node,
    pub procs: &'a Procs,
    pub all_shared: bool,
    pub text: &'a [u8],
    pub budget: u32,
}
