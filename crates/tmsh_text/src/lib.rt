//! Configurations in the second text, after tmsh: read and printed.
#![tactic(auto)]

mod braces;
mod fault;
mod groups;
mod items;
mod limits;
mod pool_items;
mod print;
mod read;
mod rules;
mod servers;
mod words;

pub use fault::{PrintFault, TmshFault};
pub use print::print_tmsh;
pub use read::tmsh_table;
