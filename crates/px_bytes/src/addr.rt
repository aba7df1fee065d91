// Addresses and sides.

/// An IPv4 address and a TCP port.
#[derive(Clone, Copy, PartialEq, Eq)]
pub struct Addr {
    pub ip: u32,
    pub port: u16,
}

/// The IPv4 addresses that agree with `ip` in the first `bits` bits.
#[derive(Clone, Copy, PartialEq, Eq)]
pub struct Net4 {
    pub ip: u32,
    pub bits: u8,
}

/// The end of a connection from which bytes come or to which they go.
#[derive(Clone, Copy, PartialEq, Eq)]
pub enum Side {
    Client,
    Server,
}
