// What a whole expression gives.

ghost use Rattle.std.specs.Prelude.{◌≡◌, IfOk};
ghost use Rattle.tcl_trees.specs.WholeResult.{ResultAlone, whole_result};

use px_bytes::{M, Text, print_whole, read_whole};
use std::alloc::Global;

/// The value of a whole expression as its result: a whole number in decimal, and any other value as
/// it is.
pub fn expression_result(alloc: Global, value: Text) -> M<Text>
    ensures { IfOk result (λ text. text ≡ whole_result value) }
{
    match read_whole(value.as_bytes()) {
        Some(number) => print_whole(alloc, number),
        None => Ok(value),
    }
}

/// The law that the result alone is written in decimal.
pub fn result_alone()
    ensures { ResultAlone }
{}
