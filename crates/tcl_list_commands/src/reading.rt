// Words of a command that are lists, and the faults of its words.

ghost use Rattle.px_bytes.specs.Gives.{Gives};
ghost use Rattle.tcl_list_commands.specs.Reading.{elements_of};

use px_bytes::{Raise, Text, Texts};
use std::alloc::Global;
use tcl_lists::{ListFault, split};

/// The elements of a list that is a word of the command of this name.
pub(crate) fn elements(alloc: Global, name: &[u8], text: &[u8]) -> Result<Texts, Raise>
    ensures { Gives result (elements_of name.now text.now) }
{
    match split(alloc, text) {
        Ok(texts) => Ok(texts),
        Err(ListFault::Memory) => Err(Raise::Memory),
        Err(_) => Raise::syntax(alloc, name),
    }
}
