//! Pools: members that are up or down, and which of them a selection takes.
#![tactic(auto)]

mod groups;
mod laws;
mod limits;
mod member;
mod pool;
mod turn;

pub use laws::{each_round_is_fair, none_where_none_is_up, selected_is_up, wish_keeps_turn};
pub use limits::are_members;
pub use member::{Marked, Member, Members, Method, Wanted};
pub use pool::Pool;
