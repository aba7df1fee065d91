// A text split at a byte.

ghost use Rattle.std.specs.Prelude.{◌≡◌, length, MatchOption};
ghost use Rattle.px_bytes.specs.SplitAt.{mark_at, SplitsAt};

/// What stands before the first byte that is `mark`, and what behind it; none where none is.
pub(crate) fn split_at(text: &[u8], mark: u8) -> Option<(&[u8], &[u8])>
    ensures first { MatchOption result (mark_at mark text.now ≡ length text.now)
        (λ parts. SplitsAt mark text.now parts.0.now parts.1.now) }
{
    let at = text.iter().position(|byte| *byte == mark)?;
    Some((&text[..at], &text[at + 1..]))
}
