// A text in two parts.

ghost use Rattle.std.specs.Prelude.{◌≡◌, ◌≤◌, ◌==◌, length};
ghost use Rattle.std.specs.List.{after_first, before_first, position_or_len};

/// What stands before the first byte that is `mark`, and what behind it. Where none is, all stands
/// before it.
pub(crate) fn around(mark: u8, text: &[u8]) -> (&[u8], &[u8])
    ensures before { result.0.now ≡ before_first (λ byte. byte == mark) text.now }
    ensures after { result.1.now ≡ after_first (λ byte. byte == mark) text.now }
{
    let at = place(mark, text);
    match &text[at..] {
        [_, after @ ..] => (&text[..at], after),
        [] => (text, &[]),
    }
}

fn place(mark: u8, text: &[u8]) -> usize
    ensures first { result ≡ position_or_len (λ byte. byte == mark) text.now }
    ensures inside { result ≤ length text.now }
{
    text.iter()
        .position(|byte| *byte == mark)
        .unwrap_or(text.len())
}
