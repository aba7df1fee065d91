// What is done with a number.

/// What is done with each number of a list.
#[derive(Clone, Copy)]
pub enum Poll {
    /// A listener is asked for connections.
    Listener,
    /// A link is asked for bytes, or for the answer to its connect.
    Link,
    /// What is pending on a connection is written.
    Writer,
}
