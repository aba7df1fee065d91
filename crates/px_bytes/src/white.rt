// White space.

ghost use Rattle.std.specs.Prelude.{◌≡◌};
ghost use Rattle.px_bytes.specs.White.{is_space, trimmed_start, trimmed_end, trimmed};

/// Whether a byte is white space: a blank, tab, newline, vertical tab, form feed or carriage return.
pub fn is_space(byte: u8) -> bool
    ensures { result ≡ is_space byte }
{
    matches!(byte, b' ' | b'\t'..=b'\r')
}

/// The text without the white space around it.
pub fn trimmed(text: &[u8]) -> &[u8]
    ensures { result.now ≡ trimmed text.now }
{
    trimmed_end(trimmed_start(text))
}

fn trimmed_start(text: &[u8]) -> &[u8]
    ensures { result.now ≡ trimmed_start text.now }
{
    let mut rest = text;
    while let [first, behind @ ..] = rest {
        if !is_space(*first) {
            return rest;
        }
        rest = behind;
    }
    rest
}

fn trimmed_end(text: &[u8]) -> &[u8]
    ensures { result.now ≡ trimmed_end text.now }
{
    let mut rest = text;
    while let [before @ .., last] = rest {
        if !is_space(*last) {
            return rest;
        }
        rest = before;
    }
    rest
}
