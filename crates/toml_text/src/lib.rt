//! The text of a TOML table, which is read back as the same table.
#![tactic(auto)]

mod depth;
mod text;

pub use text::table_text;
