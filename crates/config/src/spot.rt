// Where something is wrong in a text.

ghost use Rattle.std.specs.Prelude.{◌≡◌, IfOk};
ghost use Rattle.config.specs.Spots.{spot_at};

use px_bytes::{M, Text};
use std::alloc::Global;
use text_places::{column_of, line_at, line_of};

/// The text in which something is wrong.
#[derive(Drop)]
pub enum Source {
    /// That of the configuration's file, and what the reader of TOML says of it.
    Document(Text),
    /// That of the rule of this place, which stands in the configuration.
    Rule(usize),
    /// That of the file of a rule, which has this name.
    File(Text),
    /// That of the configuration's file, where a key stands.
    Key,
}

/// Where something is wrong, as an editor counts it.
#[derive(Drop)]
pub struct Spot {
    pub source: Source,
    /// The line in the source, from 1.
    pub line: usize,
    /// Which byte of the line it is, from 1.
    pub column: usize,
    /// The line itself, without the newline that ends it.
    pub text: Text,
}

/// The spot of a place, in bytes from 0, in the text of a source.
pub(crate) fn spot_at(alloc: Global, source: Source, text: &[u8], place: usize) -> M<Spot>
    ensures { IfOk result (λ spot. spot ≡ spot_at source text.now place) }
{
    Ok(Spot {
        source,
        line: line_of(text, place),
        column: column_of(text, place),
        text: Text::new(alloc, line_at(text, place))?,
    })
}
