// The open links, and the sides that they serve.

ghost use Rattle.std.specs.Prelude.{◌≡◌, OnOk, OnErr};
ghost use Rattle.serve_loop.specs.Links.{owner_in, link_in, IsEmpty, Same, Opens, Closes};

use crate::LinkOwner;
use px_bytes::{M, Side};
use std::alloc::Global;
use std::collections::HashMap;

/// Whose each open link is, and which link each side of a connection has.
#[derive(Drop)]
pub struct Links {
    owners: HashMap<u32, LinkOwner>,
    clients: HashMap<u32, u32>,
    servers: HashMap<u32, u32>,
}

impl Links {
    pub fn new(alloc: Global) -> Links
        ensures { IsEmpty result }
    {
        Links {
            owners: HashMap::new(alloc),
            clients: HashMap::new(alloc),
            servers: HashMap::new(alloc),
        }
    }

    /// Whose a link is.
    pub fn owner(&self, link: u32) -> Option<LinkOwner>
        ensures { result ≡ owner_in self.now link }
    {
        self.owners.get(&link).copied()
    }

    /// The link of a side of a connection.
    pub fn link(&self, conn: u32, side: Side) -> Option<u32>
        ensures { result ≡ link_in self.now conn side }
    {
        match side {
            Side::Client => self.clients.get(&conn).copied(),
            Side::Server => self.servers.get(&conn).copied(),
        }
    }

    /// Makes room for one more link.
    pub fn reserve(&mut self) -> M<()>
        ensures { Same self.old self.new }
    {
        self.owners.reserve(1)?;
        self.clients.reserve(1)?;
        self.servers.reserve(1)?;
        Ok(())
    }

    /// From now on the link serves this side of the connection.
    pub fn open(&mut self, link: u32, conn: u32, side: Side) -> M<()>
        ensures opens { OnOk result (Opens self.old self.new link conn side) }
    {
        self.owners.insert(link, LinkOwner { conn, side })?;
        match side {
            Side::Client => self.clients.insert(conn, link)?,
            Side::Server => self.servers.insert(conn, link)?,
        };
        Ok(())
    }

    /// The link serves nothing any more.
    pub fn close(&mut self, link: u32, conn: u32, side: Side)
        ensures { Closes self.old self.new link conn side }
    {
        self.owners.remove(&link);
        match side {
            Side::Client => self.clients.remove(&conn),
            Side::Server => self.servers.remove(&conn),
        };
    }
}
