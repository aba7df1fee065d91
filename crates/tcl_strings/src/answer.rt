// Numbers and tests as values.

ghost use Rattle.px_bytes.specs.Gives.{Gives};
ghost use Rattle.tcl_strings.specs.Answer.{number_value, test_value};

use px_bytes::{Raise, Text};
use std::alloc::Global;

/// A number in decimal.
pub(crate) fn number(alloc: Global, value: usize) -> Result<Text, Raise>
    ensures { Gives result (number_value value) }
{
    Ok(Text::from_vec(format!(in alloc; "{value}")?.into_bytes()))
}

/// 1 for a test that holds, and else 0.
pub(crate) fn test(alloc: Global, holds: bool) -> Result<Text, Raise>
    ensures { Gives result (test_value holds) }
{
    let text = if holds { b"1" } else { b"0" };
    Ok(Text::new(alloc, text)?)
}
