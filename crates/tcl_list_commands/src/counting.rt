// The number of a list's elements.

ghost use Rattle.px_bytes.specs.Gives.{Gives};
ghost use Rattle.tcl_list_commands.specs.Counting.{llength_value};

use crate::reading::elements;
use crate::writing::printed;
use px_bytes::{Raise, Text};
use std::alloc::Global;

/// `llength LIST`: how many elements the list has.
pub fn llength(alloc: Global, arguments: &[Text]) -> Result<Text, Raise>
    ensures { Gives result (llength_value arguments.now) }
{
    let [list] = arguments else {
        return Raise::arity(alloc, b"llength");
    };
    let elements = elements(alloc, b"llength", list.as_bytes())?;
    Ok(printed(alloc, elements.len())?)
}
