// Values that are lists, numbers or texts of no more than the greatest length.

ghost use Rattle.std.specs.Prelude.{◌≡◌, IfOk, length, nat_le};
ghost use Rattle.std.specs.Fmt.{decimal};
ghost use Rattle.px_bytes.specs.Gives.{Gives};
ghost use Rattle.tcl_lists.specs.Write.{joined};
ghost use Rattle.px_bytes.specs.Limit.{limited, text_limit};

use crate::form::written_len;
use px_bytes::{M, Raise, TEXT_LIMIT, Text, Texts};
use std::alloc::Global;
use tcl_lists::join_list;

/// The elements as a list, where that isn't too long.
pub(crate) fn written(alloc: Global, elements: &Texts) -> Result<Text, Raise>
    ensures { Gives result (limited (joined elements.now)) }
{
    if !fits(elements.as_slice()) {
        return Raise::too_long(alloc);
    }
    Ok(join_list(alloc, elements)?)
}

/// The bytes as a text, where they aren't too many.
pub(crate) fn fitted(alloc: Global, bytes: &[u8]) -> Result<Text, Raise>
    ensures { Gives result (limited bytes.now) }
{
    if bytes.len() > TEXT_LIMIT {
        return Raise::too_long(alloc);
    }
    Ok(Text::new(alloc, bytes)?)
}

// Whether the list of the elements is no longer than a value may be. An element takes its own bytes
// and a blank, the last one also; so there is room for one byte more.
fn fits(elements: &[Text]) -> bool
    ensures { result ≡ nat_le (length (joined elements.now)) text_limit }
{
    let mut room = TEXT_LIMIT + 1;
    for element in elements {
        let size = written_len(element.as_bytes());
        if size >= room {
            return false;
        }
        room -= size + 1;
    }
    true
}

/// A number without sign in decimal.
pub(crate) fn printed(alloc: Global, number: usize) -> M<Text>
    ensures { IfOk result (λ text. text ≡ decimal number) }
{
    Ok(Text::from_vec(format!(in alloc; "{number}")?.into_bytes()))
}

/// The same texts.
pub(crate) fn copied(alloc: Global, texts: &[Text]) -> M<Texts>
    ensures { IfOk result (λ copies. copies ≡ texts.now) }
{
    let mut copies = Texts::new(alloc);
    for text in texts {
        copies.push(text.copy()?)?;
    }
    Ok(copies)
}
