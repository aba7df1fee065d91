// Where an element's bytes end. A backslash and the byte behind it stand together.

ghost use Rattle.std.specs.Prelude.{◌≡◌, ◌==◌, ◌<◌, ◌≤◌, false, drop, length, slice_index};
ghost use Rattle.px_bytes.specs.White.{is_space};
ghost use Rattle.tcl_lists.specs.Element.{brace_len, free_len, is_quote, takes_next};
ghost use Rattle.tcl_lists.specs.Cut.{stops};

use px_bytes::is_space;

/// How many bytes of a bare element stand behind its first.
pub(crate) fn bare_len(text: &[u8]) -> usize
    requires { 0 < length text.now }
    ensures value { result ≡ free_len is_space (slice_index text.now 0 == 92) (drop 1 text.now) }
    ensures within { result < length text.now }
{
    free_len(End::WhiteSpace, text[0] == b'\\', &text[1..])
}

/// How many bytes stand before the closing quote, or all where there is none.
pub(crate) fn quote_len(text: &[u8]) -> usize
    ensures value { result ≡ free_len is_quote false text.now }
    ensures within { result ≤ length text.now }
{
    free_len(End::Quote, false, text)
}

// What ends an element.
#[derive(Clone, Copy)]
enum End {
    WhiteSpace,
    Quote,
}

impl End {
    fn stops(self, byte: u8) -> bool
        ensures { result ≡ stops self byte }
    {
        match self {
            End::WhiteSpace => is_space(byte),
            End::Quote => byte == b'"',
        }
    }
}

// How many bytes stand before the end, or all where there is none. `taken` says that a backslash
// stands before the first byte.
fn free_len(end: End, mut taken: bool, text: &[u8]) -> usize
    ensures value { result ≡ free_len (stops end) taken text.now }
    ensures within { result ≤ length text.now }
{
    for (at, byte) in text.iter().enumerate() {
        if !taken && end.stops(*byte) {
            return at;
        }
        taken = takes_next(taken, *byte);
    }
    text.len()
}

/// How many bytes stand before the brace that closes the one before them, or all where none does.
pub(crate) fn brace_len(text: &[u8]) -> usize
    ensures value { result ≡ brace_len false 0 text.now }
    ensures within { result ≤ length text.now }
{
    let mut taken = false;
    let mut depth = 0usize;
    for (at, byte) in text.iter().enumerate() {
        match *byte {
            b'{' if !taken => depth += 1,
            b'}' if !taken && depth == 0 => return at,
            b'}' if !taken => depth -= 1,
            _ => {}
        }
        taken = takes_next(taken, *byte);
    }
    text.len()
}

// Whether the next byte is behind a backslash.
fn takes_next(taken: bool, byte: u8) -> bool
    ensures { result ≡ takes_next taken byte }
{
    !taken && byte == b'\\'
}
