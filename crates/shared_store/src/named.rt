// Pools and virtual servers with their names.

ghost use Rattle.std.specs.Prelude.{◌≡◌, IfOk};

use pools::Pool;
use px_bytes::{M, Seq, Text};
use std::alloc::Global;

/// A pool and its name.
#[derive(Drop)]
pub struct NamedPool {
    pub name: Text,
    pub pool: Pool,
}

impl NamedPool {
    /// The same once more.
    pub fn copy(&self, alloc: Global) -> M<NamedPool>
        ensures { IfOk result (λ copy. copy ≡ self.now) }
    {
        Ok(NamedPool {
            name: self.name.copy()?,
            pool: self.pool.copy(alloc)?,
        })
    }
}

/// A virtual server: whether it keeps the member that was chosen for a client's address, and for how
/// many seconds.
#[derive(Drop)]
pub struct VirtualTime {
    pub name: Text,
    pub by_source: bool,
    pub timeout: u32,
}

/// Virtual servers in the order of the file.
pub type VirtualTimes = Seq<VirtualTime>;
