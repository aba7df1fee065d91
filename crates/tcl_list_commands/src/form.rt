// How long an element is as it is written in a list.

ghost use Rattle.std.specs.Prelude.{◌≡◌, length};
ghost use Rattle.std.specs.List.{count_by, list_any};
ghost use Rattle.tcl_lists.specs.Write.{begins_comment, fits_braces, is_special, spelled, stands_bare};

use px_bytes::is_space;

/// How many bytes an element has as it is written: as it is, in braces or with backslashes.
pub(crate) fn written_len(element: &[u8]) -> usize
    ensures { result ≡ length (spelled element.now) }
{
    if element.is_empty() {
        return 2;
    }
    if stands_bare(element) {
        return element.len();
    }
    if fits_braces(element) {
        return element.len() + 2;
    }
    let hash = usize::from(begins_comment(element));
    element.len() + special_count(element) + hash
}

fn begins_comment(element: &[u8]) -> bool
    ensures { result ≡ begins_comment element.now }
{
    matches!(element, [b'#', ..])
}

fn stands_bare(element: &[u8]) -> bool
    ensures { result ≡ stands_bare element.now }
{
    !has_special(element) && !begins_comment(element)
}

// Whether an element can stand in braces: it has no backslash, and its braces match.
fn fits_braces(element: &[u8]) -> bool
    ensures { result ≡ fits_braces 0 element.now }
{
    let mut depth = 0usize;
    for byte in element {
        match byte {
            b'\\' => return false,
            b'{' => depth += 1,
            b'}' if depth == 0 => return false,
            b'}' => depth -= 1,
            _ => {}
        }
    }
    depth == 0
}

fn has_special(element: &[u8]) -> bool
    ensures { result ≡ list_any is_special element.now }
{
    element.iter().any(|byte| is_special(*byte))
}

// How many bytes need braces or a backslash.
fn special_count(element: &[u8]) -> usize
    ensures { result ≡ count_by is_special element.now }
{
    element.iter().filter(|byte| is_special(**byte)).count()
}

fn is_special(byte: u8) -> bool
    ensures { result ≡ is_special byte }
{
    is_space(byte) || matches!(byte, b'{' | b'}' | b'[' | b']' | b'$' | b';' | b'"' | b'\\')
}
