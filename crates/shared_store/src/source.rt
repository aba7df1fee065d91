// Clients' addresses at virtual servers that keep members.

ghost use Rattle.std.specs.Prelude.{◌≡◌, position};
ghost use Rattle.shared_store.specs.Sources.{has_name, source_by, source_of};

use crate::{VirtualTime, VirtualTimes};
use tcl_encodings::read_address;

/// A client's address at a virtual server that keeps the member that was chosen for it, by its place
/// in the order of the file, for so many seconds.
#[derive(Clone, Copy, PartialEq, Eq)]
pub(crate) struct Source {
    pub virtual_server: u32,
    pub timeout: u32,
    pub ip: u32,
}

/// The first virtual server of a name, where it keeps members, and the address that a text is.
pub(crate) fn source_of(virtuals: &VirtualTimes, name: &[u8], ip: &[u8]) -> Option<Source>
    ensures { result ≡ source_of name.now ip.now virtuals.now }
{
    let at = place(virtuals, name)?;
    match (virtuals.get(at), read_address(ip)) {
        (Some(server), Some(ip)) => source_by(at, server, ip),
        _ => None,
    }
}

// The place of the first virtual server of a name.
fn place(virtuals: &VirtualTimes, name: &[u8]) -> Option<usize>
    ensures { result ≡ position (has_name name.now) virtuals.now }
{
    virtuals
        .as_slice()
        .iter()
        .position(|server| name == server.name.as_bytes())
}

fn source_by(at: usize, server: &VirtualTime, ip: u32) -> Option<Source>
    ensures { result ≡ source_by at server.now ip }
{
    if !server.by_source || server.timeout == 0 {
        return None;
    }
    Some(Source {
        virtual_server: u32::try_from(at).ok()?,
        timeout: server.timeout,
        ip,
    })
}
