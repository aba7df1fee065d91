// Lines and columns.

ghost use Rattle.std.specs.Prelude.{◌≡◌, take};
ghost use Rattle.std.specs.List.{position_or_len};
ghost use Rattle.text_places.specs.Places.{column_of, is_newline, line_at, line_of, line_start};

// The bytes before a place.
fn before(text: &[u8], at: usize) -> &[u8]
    ensures { result.now ≡ take at text.now }
{
    text.get(..at).unwrap_or(text)
}

/// The number of the line of the byte at a place, from 1.
pub fn line_of(text: &[u8], at: usize) -> usize
    ensures { result ≡ line_of text.now at }
{
    let mut line: usize = 1;
    for byte in before(text, at) {
        if *byte == b'\n' {
            line += 1;
        }
    }
    line
}

/// Which byte of its line the byte at a place is, from 1.
pub fn column_of(text: &[u8], at: usize) -> usize
    ensures { result ≡ column_of text.now at }
{
    let mut column: usize = 1;
    for byte in before(text, at) {
        column = if *byte == b'\n' { 1 } else { column + 1 };
    }
    column
}

// Where the line of a place begins.
fn line_start(text: &[u8], at: usize) -> usize
    ensures { result ≡ line_start text.now at }
{
    before(text, at).len() - (column_of(text, at) - 1)
}

// How many bytes stand before the first newline.
fn line_len(rest: &[u8]) -> usize
    ensures { result ≡ position_or_len is_newline rest.now }
{
    let mut len: usize = 0;
    while len < rest.len() && rest[len] != b'\n' {
        len += 1;
    }
    len
}

/// The line of the byte at a place, without the newline that ends it.
pub fn line_at(text: &[u8], at: usize) -> &[u8]
    ensures { result.now ≡ line_at text.now at }
{
    let rest = &text[line_start(text, at)..];
    &rest[..line_len(rest)]
}
