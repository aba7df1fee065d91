//! The real outside, tried on this machine: sockets on its loopback, a file, standard output. It has
//! tests alone, so that `px_real` isn't proved a second time with them.
#![tactic(auto)]

#[cfg(test)]
mod tests;
