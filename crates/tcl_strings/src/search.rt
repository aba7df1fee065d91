// Where a piece stands in a text: `string first` and `string last`.

ghost use Rattle.std.specs.Prelude.{◌≡◌, ◌+◌, ◌≤◌, IfSome, length};
ghost use Rattle.px_bytes.specs.Gives.{Gives};
ghost use Rattle.tcl_strings.specs.Search.{first_place, first_value, last_place, last_value};
ghost use Rattle.tcl_strings.specs.Search.{place_value};

use crate::answer::number;
use memchr::memmem;
use px_bytes::{Raise, Text};
use std::alloc::Global;

/// Where the piece stands first in the text; -1 where it doesn't, or where it is empty.
pub(crate) fn first(alloc: Global, piece: &[u8], text: &[u8]) -> Result<Text, Raise>
    ensures { Gives result (first_value piece.now text.now) }
{
    place_text(alloc, first_place(piece, text))
}

/// Where the piece stands last in the text; -1 where it doesn't, or where it is empty.
pub(crate) fn last(alloc: Global, piece: &[u8], text: &[u8]) -> Result<Text, Raise>
    ensures { Gives result (last_value piece.now text.now) }
{
    place_text(alloc, last_place(piece, text))
}

/// Where the piece stands first in the text; none where it doesn't, or where it is empty.
pub(crate) fn first_place(piece: &[u8], text: &[u8]) -> Option<usize>
    ensures value { result ≡ first_place piece.now text.now }
    ensures within { IfSome result (λ place. place + length piece.now ≤ length text.now) }
{
    if piece.is_empty() {
        return None;
    }
    memmem::find(text, piece)
}

fn last_place(piece: &[u8], text: &[u8]) -> Option<usize>
    ensures { result ≡ last_place piece.now text.now }
{
    if piece.is_empty() {
        return None;
    }
    memmem::rfind(text, piece)
}

fn place_text(alloc: Global, place: Option<usize>) -> Result<Text, Raise>
    ensures { Gives result (place_value place) }
{
    match place {
        Some(place) => number(alloc, place),
        None => Ok(Text::new(alloc, b"-1")?),
    }
}
