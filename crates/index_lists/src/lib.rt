//! Lists of numbers that are kept for speed: deadlines by number, and the ring of those that wait their turn.
#![tactic(auto)]

mod earlier;
mod ring;
mod tree;
mod wheel;
mod wider;

pub use ring::Ring;
pub use wheel::Wheel;
