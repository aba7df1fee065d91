//! The reader of the second text of configurations, after tmsh.
#![tactic(auto)]

mod braced;
mod draft;
mod fault;
mod gap;
mod item;
mod laws;
mod next;
mod quoted;
mod read;
mod section;
mod shape;
mod step;
mod tables;
mod token;
mod tokens;
mod values;
mod word;

pub use braced::Braces;
pub use fault::ReadFault;
pub use laws::{first_faulty, one_meaning};
pub use read::table_of;
pub use tokens::is_mark;
