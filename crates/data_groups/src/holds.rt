// The tests of two texts.

ghost use Rattle.std.specs.Prelude.{◌≡◌};
ghost use Rattle.tcl_expr.specs.TextTests.{contains};
ghost use Rattle.data_groups.specs.Matches.{holds};

use crate::ClassOp;
use memchr::memmem;

/// Whether `x OP y`.
pub(crate) fn holds(op: ClassOp, x: &[u8], y: &[u8]) -> bool
    ensures { result ≡ holds op x.now y.now }
{
    match op {
        ClassOp::Equals => x == y,
        ClassOp::StartsWith => x.starts_with(y),
        ClassOp::EndsWith => x.ends_with(y),
        ClassOp::Contains => contains(x, y),
    }
}

fn contains(text: &[u8], part: &[u8]) -> bool
    ensures { result ≡ contains text.now part.now }
{
    memmem::find(text, part).is_some()
}
