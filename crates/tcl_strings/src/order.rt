// Texts that are compared.

ghost use Rattle.px_bytes.specs.Gives.{Gives};
ghost use Rattle.tcl_strings.specs.Order.{compare_value};

use px_bytes::{Raise, Text};
use std::alloc::Global;
use std::cmp::Ordering;

/// How a text compares to another, byte by byte.
pub(crate) fn compare(alloc: Global, a: &[u8], b: &[u8]) -> Result<Text, Raise>
    ensures { Gives result (compare_value a.now b.now) }
{
    let text = match a.cmp(&b) {
        Ordering::Less => b"-1".as_slice(),
        Ordering::Equal => b"0",
        Ordering::Greater => b"1",
    };
    Ok(Text::new(alloc, text)?)
}
