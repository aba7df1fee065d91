//! What test files are read as, tried on the three files of the manual and on faulty ones. It has
//! tests alone, so that the reader isn't proved a second time with them.
#![tactic(auto)]

#[cfg(test)]
mod tests;
