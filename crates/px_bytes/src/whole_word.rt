// Words that have to be whole numbers.

ghost use Rattle.px_bytes.specs.Gives.{Gives};
ghost use Rattle.px_bytes.specs.WholeWord.{number_of};

use crate::{Raise, TclFault, read_whole};
use std::alloc::Global;

/// The whole number that a word of a command is, or the fault that it isn't one.
pub fn number(alloc: Global, word: &[u8]) -> Result<i64, Raise>
    ensures { Gives result (number_of word.now) }
{
    match read_whole(word) {
        Some(number) => Ok(number),
        None => Err(Raise::Fault(TclFault::not_whole(alloc, word)?)),
    }
}
