// The records of all virtual servers.

ghost use Rattle.std.specs.Prelude.{◌≡◌, ◌<◌, [], List, length, position, IfSome, OnOk, OnErr};
ghost use Rattle.persistence.specs.Records.{is_of, kept, live, member_of};
ghost use Rattle.persistence.specs.declared.record.Record.{Record};

use crate::Record;
use px_bytes::{Addr, M};
use std::alloc::Global;
use std::marker::Model;

// The most records.
const RECORD_LIMIT: usize = 65_536;

/// Records, one of an address at a virtual server.
#[derive(Drop)]
pub struct Records {
    items: Vec<Record>,
}

impl Model for Records {
    ghost Value = { List Record };

    ghost view = { λ r. r.items.items };
}

impl Records {
    /// No records, which takes no memory.
    pub fn new(alloc: Global) -> Records
        ensures { result ≡ [] }
    {
        Records {
            items: Vec::new(alloc),
        }
    }

    /// The records in the order in which they were made.
    pub fn as_slice(&self) -> &[Record]
        ensures { result.now ≡ self.now }
    {
        &self.items
    }

    /// The member of an address at a virtual server, live or not. It goes over all records.
    pub fn find(&self, virtual_server: u32, ip: u32) -> Option<Addr>
        ensures { result ≡ member_of virtual_server ip self.now }
    {
        let at = self.place(virtual_server, ip)?;
        Some(self.items[at].member)
    }

    /// Keeps a record in the place of the one of its address, if there is one. Where there are 65,536
    /// records, a new one isn't kept.
    pub fn keep(&mut self, chosen: Record) -> M<()>
        ensures ok { OnOk result (self.new ≡ kept chosen self.old) }
        ensures err { OnErr result (self.new ≡ self.old) }
    {
        match self.place(chosen.virtual_server, chosen.ip) {
            Some(at) => self.items[at] = chosen,
            None if self.items.len() < RECORD_LIMIT => self.items.push(chosen)?,
            None => {}
        }
        Ok(())
    }

    /// Takes away the records that aren't live at a moment. It goes over all records, and takes no
    /// memory.
    pub fn expire(&mut self, moment: u64)
        ensures { self.new ≡ live moment self.old }
    {
        self.items.retain(|held| held.is_live(moment));
    }

    // The place of the record of an address.
    fn place(&self, virtual_server: u32, ip: u32) -> Option<usize>
        ensures place { result ≡ position (is_of virtual_server ip) self.now }
        ensures inside { IfSome result (λ at. at < length self.now) }
    {
        self.items
            .iter()
            .position(|held| held.is_of(virtual_server, ip))
    }
}
