// What is sent.

/// What a sender and a standby send.
#[derive(Clone, Copy)]
pub enum Packet {
    /// The entry of this place among those that were pushed, the first being 0.
    Pushes(usize),
    /// So many entries were applied.
    Acknowledges(usize),
}

/// Why a line of a plan can't be followed.
#[derive(Clone, Copy)]
pub enum MirrorStop {
    /// The packet wasn't sent yet.
    NotSent,
    /// The standby's reply to the entry of this number, the first being 1, isn't the entry's.
    Differs(usize),
}
