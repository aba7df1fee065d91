// A shared call that is open.

use px_bytes::Texts;

/// A shared call that waits for its Turn: of which connection, and its words.
#[derive(Drop)]
pub struct Asked {
    pub conn: u32,
    pub call: Texts,
}

/// A shared call that sleeps before it waits for its Turn: of which connection, its words, and the
/// moment up to which it sleeps, the greatest number where it never wakes.
#[derive(Drop)]
pub struct Asleep {
    pub conn: u32,
    pub call: Texts,
    pub due: u64,
}
