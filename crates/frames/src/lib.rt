//! What stands above the node of a rule's body that runs, what that means, and what a move is.
#![tactic(auto)]

mod children;
mod context;
mod frame;
mod hearing;
mod host;
mod leafs;
mod machine;
mod moves;
mod next;
mod prices;
mod reads;
mod stops;
mod turn;
mod values;

pub use children::{child_at, commands, is_script, part_at, pieces_of, word_parts, words_of};
pub use context::Context;
pub use frame::{Frame, Mode, Room, Standing};
pub use hearing::{copied, copies, hear};
pub use host::Host;
pub use leafs::{is_leaf, leaf_code};
pub use machine::Machine;
pub use moves::Moves;
pub use next::Next;
pub use prices::alone;
pub use reads::Reads;
pub use turn::Turn;
pub use values::Values;
