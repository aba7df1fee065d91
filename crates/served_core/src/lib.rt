//! A configuration is served, and keeps the promise of the core.
#![tactic(auto)]

mod serves;

pub use serves::serve_config;
