// The bytes that the sides of connections took.

ghost use Rattle.std.specs.Prelude.{◌≡◌, ◌<◌, ◌++◌, IfOk, OnOk, IfSome, length, nat_eq};
ghost use Rattle.std.specs.List.{position_from};
ghost use Rattle.proxy.specs.Taken.{AreRising, begins_server, changed, more_of, took_of, took_on};
ghost use Rattle.proxy.specs.Taken.{with_took};
ghost use Rattle.proxy_core.specs.Queries.{front_of};
ghost use Rattle.proxy_core.specs.Refusals.{live_at};

use crate::server_bytes::ServerBytes;
use proxy_core::{Core, Event};
use px_bytes::{M, Side, Text};
use std::alloc::Global;

/// What the sides of a connection took so far: its client, and each of its servers.
#[derive(Drop)]
pub struct Taken {
    pub conn: u32,
    pub client: Text,
    pub servers: ServerBytes,
}

/// What an event brings: a connection, a server connection of one, or more bytes that a side of one
/// took.
#[derive(Drop)]
pub enum Took {
    Nothing,
    Begins(u32),
    Connects(u32),
    More(u32, Side, Text),
}

/// What an event brings, by the core before it.
pub fn took_by(core: &Core, event: &Event) -> M<Took>
    ensures { IfOk result (λ took. took ≡ took_of core.now event.now) }
{
    match event {
        Event::Accept { conn, .. } => Ok(Took::Begins(*conn)),
        Event::Connected { conn } => Ok(Took::Connects(*conn)),
        Event::ClientTook { conn, n } => more_by(core, *conn, Side::Client, *n),
        Event::ServerTook { conn, n } => more_by(core, *conn, Side::Server, *n),
        _ => Ok(Took::Nothing),
    }
}

// The first bytes that were pending to a side.
fn more_by(core: &Core, conn: u32, side: Side, n: usize) -> M<Took>
    ensures { IfOk result (λ took.
        took ≡ more_of conn side (front_of side n (live_at core.now.live.items conn))) }
{
    match core.copy(conn, side, n)? {
        Some(bytes) => Ok(Took::More(conn, side, bytes)),
        None => Ok(Took::Nothing),
    }
}

/// Adds what an event brought to connections whose numbers rise.
pub fn add_took(alloc: Global, all: &mut Vec<Taken>, took: Took) -> M<()>
    ensures { OnOk result (AreRising all.old.items
        → all.new.items ≡ with_took took all.old.items) }
{
    match took {
        Took::Nothing => Ok(()),
        Took::Begins(conn) => {
            all.push(Taken {
                conn,
                client: Text::empty(alloc),
                servers: ServerBytes::new(alloc),
            })?;
            Ok(())
        }
        Took::Connects(conn) => add_server(alloc, all, conn),
        Took::More(conn, side, bytes) => add_bytes(all, conn, side, &bytes),
    }
}

fn add_server(alloc: Global, all: &mut Vec<Taken>, conn: u32) -> M<()>
    ensures { OnOk result (AreRising all.old.items
        → all.new.items ≡ changed conn begins_server all.old.items) }
{
    match find(all, conn) {
        Some(at) => all[at].servers.begin(alloc),
        None => Ok(()),
    }
}

fn add_bytes(all: &mut Vec<Taken>, conn: u32, side: Side, bytes: &Text) -> M<()>
    ensures { OnOk result (AreRising all.old.items
        → all.new.items ≡ changed conn (took_on side bytes.now) all.old.items) }
{
    match find(all, conn) {
        Some(at) => all[at].add(side, bytes.as_bytes()),
        None => Ok(()),
    }
}

impl Taken {
    // A side took more bytes.
    fn add(&mut self, side: Side, bytes: &[u8]) -> M<()>
        ensures { OnOk result (self.new ≡ took_on side bytes.now self.old) }
    {
        match side {
            Side::Client => self.client.push(bytes),
            Side::Server => self.servers.add(bytes),
        }
    }
}

// The place of a connection, by halving.
fn find(all: &[Taken], conn: u32) -> Option<usize>
    ensures place { AreRising all.now
        → result ≡ position_from (λ t. nat_eq t.conn conn) 0 all.now }
    ensures within { IfSome result (λ at. at < length all.now) }
{
    all.binary_search_by_key(&conn, |t| t.conn).ok()
}
