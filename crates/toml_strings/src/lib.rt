//! Texts of TOML.
#![tactic(auto)]

mod laws;

pub use laws::texts_are_utf8;
