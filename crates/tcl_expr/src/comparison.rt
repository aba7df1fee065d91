// The operators that test one text by another.

ghost use Rattle.std.specs.Prelude.{◌≡◌};
ghost use Rattle.tcl_expr.specs.Operators.{order};
ghost use Rattle.tcl_expr.specs.TextTests.{contains};

use memchr::memmem;
use px_bytes::read_whole;
use std::cmp::Ordering;

/// How two texts compare: as numbers where both are whole numbers, and else byte by byte.
pub(crate) fn order(x: &[u8], y: &[u8]) -> Ordering
    ensures { result ≡ order x.now y.now }
{
    match (read_whole(x), read_whole(y)) {
        (Some(a), Some(b)) => a.cmp(&b),
        _ => x.cmp(&y),
    }
}

/// Whether the text has the part somewhere.
pub(crate) fn contains(text: &[u8], part: &[u8]) -> bool
    ensures { result ≡ contains text.now part.now }
{
    memmem::find(text, part).is_some()
}
