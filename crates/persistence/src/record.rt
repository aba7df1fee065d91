// Records of source addresses.

ghost use Rattle.std.specs.Prelude.{◌≡◌};
ghost use Rattle.persistence.specs.Records.{is_live, is_of};

use px_bytes::Addr;

/// The member that was chosen for the clients of an address at a virtual server. The timeout is in
/// seconds, and counts from the moment, in milliseconds, when the record was used last.
#[derive(Clone, Copy, PartialEq, Eq)]
pub struct Record {
    pub virtual_server: u32,
    pub ip: u32,
    pub member: Addr,
    pub timeout: u32,
    pub touched: u64,
}

impl Record {
    pub fn is_live(&self, moment: u64) -> bool
        ensures { result ≡ is_live moment self.now }
    {
        moment < self.touched || moment - self.touched < 1000 * u64::from(self.timeout)
    }

    /// Whether it is the record of an address at a virtual server.
    pub(crate) fn is_of(&self, virtual_server: u32, ip: u32) -> bool
        ensures { result ≡ is_of virtual_server ip self.now }
    {
        self.virtual_server == virtual_server && self.ip == ip
    }
}
