// How a word names a variable.

ghost use Rattle.std.specs.Prelude.{◌≡◌, nat_eq, position};
ghost use Rattle.std.specs.Option.{option_copied};
ghost use Rattle.tcl_vars.specs.Names.{ends_with_paren, name_of};

/// How a word names a variable: `NAME` or `NAME(INDEX)`.
#[derive(Clone, Copy)]
pub struct Name<'a> {
    pub name: &'a [u8],
    pub index: Option<&'a [u8]>,
}

/// The variable that a word names. An empty name or index is one as any other.
pub fn name_of(text: &[u8]) -> Name<'_>
    ensures name { result.name.now ≡ (name_of text.now).name }
    ensures index { option_copied result.index ≡ (name_of text.now).index }
{
    match opening(text) {
        Some(at) if ends_with_paren(text) => Name {
            name: &text[..at],
            index: Some(&text[at + 1..text.len() - 1]),
        },
        _ => Name {
            name: text,
            index: None,
        },
    }
}

// The place of the first `(`.
fn opening(text: &[u8]) -> Option<usize>
    ensures { result ≡ position (λ b. nat_eq b 40) text.now }
{
    text.iter().position(|b| *b == b'(')
}

// Whether the last byte is `)`.
fn ends_with_paren(text: &[u8]) -> bool
    ensures { result ≡ ends_with_paren text.now }
{
    match text.last() {
        Some(last) => *last == b')',
        None => false,
    }
}
