// The earlier of two deadlines.

ghost use Rattle.std.specs.Prelude.{◌≡◌};
ghost use Rattle.index_lists.specs.Least.{earlier, is_earlier};

pub(crate) fn earlier(a: Option<u64>, b: Option<u64>) -> Option<u64>
    ensures { result ≡ earlier a b }
{
    if is_earlier(a, b) { a } else { b }
}

/// Whether a deadline comes before another; none comes behind all.
fn is_earlier(a: Option<u64>, b: Option<u64>) -> bool
    ensures { result ≡ is_earlier a b }
{
    match (a, b) {
        (Some(a), Some(b)) => a < b,
        (Some(_), None) => true,
        (None, _) => false,
    }
}
