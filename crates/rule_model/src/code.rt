// How a command or a body ends.

use px_bytes::{TclFault, Text};

/// How a command or a body ends (Tcl 8.4, return(n), break(n), continue(n), error(n)).
#[derive(Drop)]
pub enum Code {
    Value(Text),
    Raised(TclFault),
    Return(Text),
    Break,
    Continue,
}
