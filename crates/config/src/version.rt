// Versions of documents.

ghost use Rattle.std.specs.Prelude.{◌≡◌};
ghost use Rattle.toml.specs.View.{table_view};
ghost use Rattle.config.specs.Versions.{version_of};

use crate::keys::VERSION;
use crate::read::integer_at;
use toml::Table;

/// Which keys a document may have. Every key of version 1 means the same in version 2, which has
/// groups of members by priority and a limit of rows besides.
#[derive(Clone, Copy)]
pub(crate) enum Version {
    One,
    Two,
}

/// The version by which a document is judged: 1 exactly where it says so.
pub(crate) fn version_of(top: &Table) -> Version
    ensures { result ≡ version_of (table_view top.now) }
{
    match integer_at(&VERSION, top) {
        Some(1) => Version::One,
        _ => Version::Two,
    }
}
