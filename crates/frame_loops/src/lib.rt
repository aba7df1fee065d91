//! Moves of rows of operators, branches and loops.
#![tactic(auto)]

mod branches;
mod loop_turns;
mod loops;
mod node_parts;
mod quick_codes;
mod rows;
mod switches;

pub use branches::{Choices, begin_branches, go_condition};
pub use loop_turns::{go_next, go_turn};
pub use loops::{Loop, above, begin_loop, go_start, go_test};
pub use node_parts::{choices_of, joints_of, loop_of, operators_of};
pub use quick_codes::quick;
pub use rows::{begin_row, go_left, go_right};
pub use switches::choose;
