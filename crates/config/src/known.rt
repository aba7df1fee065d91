// The version and the names of a configuration.

use crate::index::Index;
use crate::version::Version;

/// Its version, and the first places of the names in its sections and of the addresses of virtual
/// servers.
#[derive(Drop)]
pub(crate) struct Known {
    pub version: Version,
    pub servers: Index,
    pub listens: Index,
    pub pools: Index,
    pub rules: Index,
    pub groups: Index,
}
