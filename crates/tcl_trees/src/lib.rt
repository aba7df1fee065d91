//! What scripts and expressions become: trees, and the definition of the tree of a script; the
//! procedures of a rule. The trees are made by `tcl_compile`.
#![tactic(auto)]

mod binding;
mod case_item;
mod findings;
mod flaw;
mod node;
mod opened;
mod procs;
mod shapes;
mod whole_result;

pub use binding::bound_values;
pub use case_item::CaseItem;
pub use findings::{CommandName, Findings};
pub use flaw::{Flaw, is_too_deep};
pub use node::{Node, Verb};
pub use opened::{Enclosure, Opened};
pub use procs::{Parameter, Proc, Procs};
pub use shapes::{Shape, shape_of};
pub use whole_result::{expression_result, result_alone};
