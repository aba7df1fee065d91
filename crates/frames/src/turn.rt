// What a step comes to.

use px_bytes::Texts;
use rule_model::Code;

/// What a step of a machine comes to.
#[derive(Drop)]
pub enum Turn {
    /// There is more to do.
    More,
    /// A shared call waits for its reply.
    Asks(Texts),
    /// The body is over.
    Done(Code),
}
