// Where a connection stands.

ghost use Rattle.std.specs.Prelude.{◌≡◌, None};
ghost use Rattle.test_past.specs.Standing.{asked_from, asked_to, conn_of, ends, finish_in, finish_of};
ghost use Rattle.test_past.specs.Standing.{is_over};

use crate::entry::{ClientConn, RunEntry};
use core_events::Cause;
use px_bytes::Addr;

/// The connection of a client, if it came.
pub fn conn_of(client: usize, came: &[ClientConn]) -> Option<u32>
    ensures { result ≡ conn_of client came.now }
{
    let found = came.iter().find(|one| one.client == client)?;
    Some(found.conn)
}

// The server that an entry asks for a connection.
fn asked_to(conn: u32, entry: &RunEntry, before: Option<Addr>) -> Option<Addr>
    ensures { result ≡ asked_to conn entry.now before }
{
    match entry {
        RunEntry::Asked { conn: of, to } => { if *of == conn { Some(*to) } else { before } }
        _ => before,
    }
}

/// The server that was asked last for a connection.
pub fn asked_by(conn: u32, entries: &[RunEntry]) -> Option<Addr>
    ensures { result ≡ asked_from conn None entries.now }
{
    let mut asked = None;
    for entry in entries {
        asked = asked_to(conn, entry, asked);
    }
    asked
}

// Why an entry lets a connection finish, where none before it did.
fn finish_in(conn: u32, entry: &RunEntry, before: Option<Cause>) -> Option<Cause>
    ensures { result ≡ finish_in conn entry.now before }
{
    match entry {
        RunEntry::Finished { conn: of, cause } => {
            if *of == conn && before.is_none() {
                Some(*cause)
            } else {
                before
            }
        }
        _ => before,
    }
}

/// Why a connection finishes, by its first finish.
pub fn finish_of(conn: u32, entries: &[RunEntry]) -> Option<Cause>
    ensures { result ≡ finish_of conn None entries.now }
{
    let mut finish = None;
    for entry in entries {
        finish = finish_in(conn, entry, finish);
    }
    finish
}

fn ends(conn: u32, entry: &RunEntry) -> bool
    ensures { result ≡ ends conn entry.now }
{
    match entry {
        RunEntry::Over { conn: of } => *of == conn,
        _ => false,
    }
}

/// Whether a connection is over.
pub fn is_over(conn: u32, entries: &[RunEntry]) -> bool
    ensures { result ≡ is_over conn entries.now }
{
    entries.iter().any(|entry| ends(conn, entry))
}
