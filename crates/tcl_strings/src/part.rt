// Bytes by their places: `string index` and `string range`.

ghost use Rattle.std.specs.Prelude.{◌≡◌, min};
ghost use Rattle.px_bytes.specs.Gives.{Gives};
ghost use Rattle.tcl_strings.specs.Part.{before, index_value, part, range_value, up_to};

use px_bytes::{Raise, Text, place};
use std::alloc::Global;

/// The byte at a place; nothing where the place lies outside.
pub(crate) fn index(alloc: Global, text: &[u8], at: &[u8]) -> Result<Text, Raise>
    ensures { Gives result (index_value text.now at.now) }
{
    let at = place(alloc, at, text.len())?;
    Ok(Text::new(alloc, part(text, at, at))?)
}

/// The bytes from one place to another, as far as they are there.
pub(crate) fn range(alloc: Global, text: &[u8], first: &[u8], last: &[u8]) -> Result<Text, Raise>
    ensures { Gives result (range_value text.now first.now last.now) }
{
    let first = place(alloc, first, text.len())?;
    let last = place(alloc, last, text.len())?;
    Ok(Text::new(alloc, part(text, first, last))?)
}

fn part(text: &[u8], first: i128, last: i128) -> &[u8]
    ensures { result.now ≡ part first last text.now }
{
    let front = &text[..up_to(last, text.len())];
    &front[before(first, front.len())..]
}

// How many of so many bytes stand before a place.
fn before(place: i128, size: usize) -> usize
    ensures { result ≡ min (before place) size }
{
    if place < 0 {
        0
    } else if place < size as i128 {
        place as usize
    } else {
        size
    }
}

// How many of so many bytes stand up to a place, the byte there included.
fn up_to(place: i128, size: usize) -> usize
    ensures { result ≡ min (up_to place) size }
{
    if place < 0 {
        0
    } else if place < size as i128 {
        place as usize + 1
    } else {
        size
    }
}
