// Monitors of pools.

use px_bytes::Text;

/// What a probe by HTTP sends, and what the answer must hold.
#[derive(Drop)]
pub struct HttpCheck {
    pub send: Text,
    pub recv: Text,
}

/// How the members of a pool are probed.
#[derive(Drop)]
pub struct Monitor {
    pub pool: Text,
    /// None where a connection is all that a probe asks for.
    pub http: Option<HttpCheck>,
    /// Seconds from one probe of a member to the next.
    pub interval: u32,
    /// Seconds without a success after which a member is down.
    pub timeout: u32,
}
