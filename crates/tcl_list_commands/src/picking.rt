// Elements by their places.

ghost use Rattle.std.specs.Prelude.{◌≡◌, length, min};
ghost use Rattle.px_bytes.specs.Gives.{Gives};
ghost use Rattle.tcl_list_commands.specs.Picking.{behind_place, element_at, from_place};
ghost use Rattle.tcl_list_commands.specs.Picking.{lindex_value, lrange_value, part, picked};
ghost use Rattle.tcl_list_commands.specs.Picking.{picked_part};

use crate::reading::elements;
use crate::writing::{copied, fitted, written};
use px_bytes::{Raise, Text, place};
use std::alloc::Global;

/// `lindex LIST POS`: the element at the place, which is empty outside of the list.
pub fn lindex(alloc: Global, arguments: &[Text]) -> Result<Text, Raise>
    ensures { Gives result (lindex_value arguments.now) }
{
    let [list, word] = arguments else {
        return Raise::arity(alloc, b"lindex");
    };
    picked(alloc, list.as_bytes(), word.as_bytes())
}

fn picked(alloc: Global, list: &[u8], word: &[u8]) -> Result<Text, Raise>
    ensures { Gives result (picked list.now word.now) }
{
    let elements = elements(alloc, b"lindex", list)?;
    let at = place(alloc, word, elements.len())?;
    fitted(alloc, element_at(elements.as_slice(), at))
}

fn element_at(elements: &[Text], at: i128) -> &[u8]
    ensures { result.now ≡ element_at elements.now at }
{
    if at < 0 {
        return b"";
    }
    match usize::try_from(at) {
        Ok(at) if at < elements.len() => elements[at].as_bytes(),
        _ => b"",
    }
}

/// `lrange LIST FIRST LAST`: the elements from one place up to and with another, as far as they are
/// there.
pub fn lrange(alloc: Global, arguments: &[Text]) -> Result<Text, Raise>
    ensures { Gives result (lrange_value arguments.now) }
{
    let [list, first, last] = arguments else {
        return Raise::arity(alloc, b"lrange");
    };
    let (first, last) = (first.as_bytes(), last.as_bytes());
    picked_part(alloc, list.as_bytes(), first, last)
}

fn picked_part(alloc: Global, list: &[u8], first: &[u8], last: &[u8]) -> Result<Text, Raise>
    ensures { Gives result (picked_part list.now first.now last.now) }
{
    let elements = elements(alloc, b"lrange", list)?;
    let first = place(alloc, first, elements.len())?;
    let last = place(alloc, last, elements.len())?;
    written(
        alloc,
        &copied(alloc, part(elements.as_slice(), first, last))?,
    )
}

fn part(elements: &[Text], first: i128, last: i128) -> &[Text]
    ensures { result.now ≡ part elements.now first last }
{
    let from = from_place(first, elements.len());
    let behind = behind_place(last, elements.len());
    if from < behind {
        &elements[from..behind]
    } else {
        &[]
    }
}

// How many elements stand before a place, where there are so many.
fn from_place(first: i128, size: usize) -> usize
    ensures { result ≡ min (from_place first) size }
{
    if first < 0 {
        return 0;
    }
    match usize::try_from(first) {
        Ok(from) => from.min(size),
        Err(_) => size,
    }
}

// How many stand before it or at it.
fn behind_place(last: i128, size: usize) -> usize
    ensures { result ≡ min (behind_place last) size }
{
    if last < 0 {
        return 0;
    }
    match usize::try_from(last) {
        Ok(at) if at < size => at + 1,
        _ => size,
    }
}
