// What commands ask, once their words are tested.

use crate::{Ending, Target};
use px_bytes::{Text, Texts};

/// What is told of the state.
#[derive(Clone, Copy, PartialEq, Eq)]
pub(crate) enum Tell {
    ClientAddr,
    ClientPort,
    ServerAddr,
    SelectedPool,
    SelectedPort,
    Held,
    HeldLength,
}

/// What a command asks, once its words are tested: a value, something of the state, a shared call,
/// or a change.
#[derive(Drop)]
pub(crate) enum Request {
    Gives(Text),
    Tells(Tell),
    Asks(Texts),
    Logs(Text),
    Chooses(Target),
    Ends(Ending),
    Collects(usize),
    Releases,
    Responds(Text),
    Replaces(usize, usize, Text),
    Reselects,
    ReselectsFrom(Target),
    Detaches,
}
