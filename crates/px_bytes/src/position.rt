// Places in a text or list, as words of a command write them.

ghost use Rattle.std.specs.Prelude.{◌≡◌};
ghost use Rattle.px_bytes.specs.Gives.{Gives};
ghost use Rattle.px_bytes.specs.Position.{before_last, last_place, position_of};

use crate::{Raise, TclFault, number, read_whole};
use std::alloc::Global;

/// The place that a word means among so many items, which may lie outside, or the fault that the
/// word is no whole number, `end` or `end-N`.
pub fn place(alloc: Global, word: &[u8], size: usize) -> Result<i128, Raise>
    ensures { Gives result (position_of size word.now) }
{
    if word == b"end".as_slice() {
        return Ok(last_place(size));
    }
    if word.starts_with(b"end-") {
        return before_last(alloc, word, size, read_whole(&word[4..]));
    }
    Ok(i128::from(number(alloc, word)?))
}

// The place of the last of so many items.
fn last_place(size: usize) -> i128
    ensures { result ≡ last_place size }
{
    size as i128 - 1
}

// The place that `end-N` means.
fn before_last(alloc: Global, word: &[u8], size: usize, count: Option<i64>) -> Result<i128, Raise>
    ensures { Gives result (before_last size word.now count) }
{
    match count {
        Some(count) => Ok(last_place(size) - i128::from(count)),
        None => Err(Raise::Fault(TclFault::not_whole(alloc, word)?)),
    }
}
