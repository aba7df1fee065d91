// Why an event is refused.

/// Why an event is refused. The numbers are those that a report prints.
#[derive(Clone, Copy, PartialEq, Eq)]
pub enum BadEvent {
    /// The connection isn't live.
    NoConn = 1,
    /// The side has ended, was reset or is closed, or there is no server connection.
    AfterEnd = 2,
    /// More bytes of the side than may come.
    TooMuch = 3,
    /// No server is asked for a connection.
    NotConnecting = 4,
    /// The moment is below the present one.
    MomentBack = 5,
    /// More bytes than were pending.
    TookTooMuch = 6,
    /// As many connections are live as may be.
    Full = 7,
    /// There is no such pool, or no such member of it.
    NoMember = 8,
    /// The number isn't above every number accepted before.
    TwiceConn = 9,
    /// No virtual server has the name.
    NoVirtual = 10,
}
