// Lists made of words.

ghost use Rattle.px_bytes.specs.Gives.{Gives};
ghost use Rattle.tcl_list_commands.specs.Making.{list_value};

use crate::writing::{copied, written};
use px_bytes::{Raise, Text};
use std::alloc::Global;

/// `list ?ELEMENT ..?`: the list of the words.
pub fn list(alloc: Global, arguments: &[Text]) -> Result<Text, Raise>
    ensures { Gives result (list_value arguments.now) }
{
    written(alloc, &copied(alloc, arguments)?)
}
