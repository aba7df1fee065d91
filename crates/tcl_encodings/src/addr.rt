// Addresses with a port, as words of a call and as settings write them.

ghost use Rattle.std.specs.Prelude.{◌≡◌};
ghost use Rattle.tcl_encodings.specs.Addr.{addr_of};

use px_bytes::{Addr, read_addr};

/// The address with a port that a text is. It takes no memory.
pub fn addr_of(text: &[u8]) -> Option<Addr>
    ensures { result ≡ addr_of text.now }
{
    read_addr(text)
}
