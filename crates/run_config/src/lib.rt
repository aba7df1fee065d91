//! What a proxy runs: its virtual servers, their rules, and the pools and data groups that rules name.
#![tactic(auto)]

mod config;

pub use config::{Config, Persist, Virtual};
