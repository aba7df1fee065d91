// The pieces of glob patterns that stand for one byte.

ghost use Rattle.std.specs.Prelude.{◌≡◌, option_map, false};
ghost use Rattle.px_bytes.specs.Glob.{range_has, behind_set, behind_piece};

/// What stands behind the first piece of a pattern, which begins with `piece` and isn't `*`, where
/// it stands for the byte.
pub(crate) fn behind_piece(piece: u8, pattern: &[u8], byte: u8) -> Option<&[u8]>
    ensures { option_map (λ p. p.now) result ≡ behind_piece piece pattern.now byte }
{
    match piece {
        b'?' => Some(pattern),
        b'[' => behind_set(pattern, byte),
        b'\\' => match pattern {
            [escaped, behind @ ..] if *escaped == byte => Some(behind),
            [] if byte == b'\\' => Some(pattern),
            _ => None,
        },
        _ if piece == byte => Some(pattern),
        _ => None,
    }
}

// What stands behind a set that has the byte.
fn behind_set(set: &[u8], byte: u8) -> Option<&[u8]>
    ensures { option_map (λ p. p.now) result ≡ behind_set byte false 0 set.now }
{
    let mut items = set;
    let mut found = false;
    while let [first, behind @ ..] = items {
        if *first == b']' {
            return found.then_some(behind);
        }
        (found, items) = match behind {
            [b'-', last, more @ ..] if *last != b']' => (
                found || range_has(*first, *last, byte),
                more,
            ),
            _ => (found || *first == byte, behind),
        };
    }
    None
}

// A range has all bytes from one end to the other, in either order.
fn range_has(a: u8, z: u8, byte: u8) -> bool
    ensures { result ≡ range_has a z byte }
{
    (a <= byte && byte <= z) || (z <= byte && byte <= a)
}
