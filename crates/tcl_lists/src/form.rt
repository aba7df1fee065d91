// How an element is to be written.

ghost use Rattle.std.specs.Prelude.{◌≡◌};
ghost use Rattle.std.specs.List.{list_any};
ghost use Rattle.tcl_lists.specs.Write.{escape_letter, fits_braces, is_special, stands_bare};

use px_bytes::is_space;

/// Whether an element that isn't empty needs neither braces nor backslashes.
pub fn stands_bare(element: &[u8]) -> bool
    ensures { result ≡ stands_bare element.now }
{
    !has_special(element) && !matches!(element, [b'#', ..])
}

/// Whether it can stand in braces: it has no backslash, and its braces match.
pub(crate) fn fits_braces(element: &[u8]) -> bool
    ensures { result ≡ fits_braces 0 element.now }
{
    let mut depth = 0usize;
    for byte in element {
        match byte {
            b'\\' => return false,
            b'{' => depth += 1,
            b'}' if depth == 0 => return false,
            b'}' => depth -= 1,
            _ => {}
        }
    }
    depth == 0
}

/// Whether a byte needs braces or a backslash.
pub(crate) fn is_special(byte: u8) -> bool
    ensures { result ≡ is_special byte }
{
    is_space(byte) || matches!(byte, b'{' | b'}' | b'[' | b']' | b'$' | b';' | b'"' | b'\\')
}

/// What stands behind the backslash of a special byte.
pub(crate) fn escape_letter(byte: u8) -> u8
    ensures { result ≡ escape_letter byte }
{
    match byte {
        b'\t' => b't',
        b'\n' => b'n',
        b'\r' => b'r',
        11 => b'v',
        12 => b'f',
        other => other,
    }
}

fn has_special(element: &[u8]) -> bool
    ensures { result ≡ list_any is_special element.now }
{
    for byte in element {
        if is_special(*byte) {
            return true;
        }
    }
    false
}
