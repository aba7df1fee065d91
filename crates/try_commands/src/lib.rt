//! What a user sees of the commands, tried over an outside in memory. It has tests alone, so that the
//! program isn't proved a second time with them.
#![tactic(auto)]

#[cfg(test)]
mod tests;
