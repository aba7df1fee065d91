//! A core to which nothing comes from outside settles, as far as the traces of its connections end.
#![tactic(auto)]

mod laws;

pub use laws::settled_comes;
