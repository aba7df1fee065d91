// Bytes that are taken off the ends: `string trim`, `string trimleft`, `string trimright`.

ghost use Rattle.std.specs.Prelude.{◌≡◌, IfOk};
ghost use Rattle.px_bytes.specs.ByteSet.{has_byte, is_among};
ghost use Rattle.tcl_strings.specs.Trim.{trimmed, trimmed_left, trimmed_right};

use px_bytes::{ByteSet, M, Text, byte_set, has_byte};
use std::alloc::Global;

/// The text without the bytes of the set at both its ends.
pub(crate) fn trim(alloc: Global, text: &[u8], bytes: &[u8]) -> M<Text>
    ensures { IfOk result (λ t. t ≡ trimmed (is_among bytes.now) text.now) }
{
    let set = byte_set(bytes);
    Text::new(alloc, without_end(&set, without_front(&set, text)))
}

/// The text without the bytes of the set at its front.
pub(crate) fn trim_left(alloc: Global, text: &[u8], bytes: &[u8]) -> M<Text>
    ensures { IfOk result (λ t. t ≡ trimmed_left (is_among bytes.now) text.now) }
{
    Text::new(alloc, without_front(&byte_set(bytes), text))
}

/// The text without the bytes of the set at its end.
pub(crate) fn trim_right(alloc: Global, text: &[u8], bytes: &[u8]) -> M<Text>
    ensures { IfOk result (λ t. t ≡ trimmed_right (is_among bytes.now) text.now) }
{
    Text::new(alloc, without_end(&byte_set(bytes), text))
}

fn without_front<'a>(set: &ByteSet, text: &'a [u8]) -> &'a [u8]
    ensures { result.now ≡ trimmed_left (has_byte set.now) text.now }
{
    let mut rest = text;
    while let [first, behind @ ..] = rest {
        if !has_byte(set, *first) {
            return rest;
        }
        rest = behind;
    }
    rest
}

fn without_end<'a>(set: &ByteSet, text: &'a [u8]) -> &'a [u8]
    ensures { result.now ≡ trimmed_right (has_byte set.now) text.now }
{
    let mut rest = text;
    while let [before @ .., last] = rest {
        if !has_byte(set, *last) {
            return rest;
        }
        rest = before;
    }
    rest
}
