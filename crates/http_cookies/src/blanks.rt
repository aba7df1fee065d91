// Blanks around texts.

ghost use Rattle.std.specs.Prelude.{◌≡◌};
ghost use Rattle.http_cookies.specs.Blanks.{without_blanks, without_first, without_last};

/// The text without the blanks and tabs around it.
pub(crate) fn without_blanks(text: &[u8]) -> &[u8]
    ensures { result.now ≡ without_blanks text.now }
{
    without_last(without_first(text))
}

fn without_first(text: &[u8]) -> &[u8]
    ensures { result.now ≡ without_first text.now }
{
    let mut rest = text;
    while let [b' ' | b'\t', behind @ ..] = rest {
        rest = behind;
    }
    rest
}

fn without_last(text: &[u8]) -> &[u8]
    ensures { result.now ≡ without_last text.now }
{
    let mut rest = text;
    while let [before @ .., b' ' | b'\t'] = rest {
        rest = before;
    }
    rest
}
