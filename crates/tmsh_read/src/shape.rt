// What stands behind the keyword of an item.

ghost use Rattle.std.specs.Prelude.{◌≡◌, ◌<◌, IfSome};
ghost use Rattle.std.specs.Option.{option_copied};
ghost use Rattle.tmsh_read.specs.Items as spec;

use crate::next::Next;
use px_bytes::read_decimal;

/// What stands behind a keyword.
#[derive(Clone, Copy)]
pub(crate) enum Shape {
    /// A decimal number.
    Number,
    /// A run or a quoted token.
    Word,
    /// The word of a method.
    Method,
    /// A brace, and then this.
    Opens(Next),
}

/// Numbers have 18 digits at most.
const GREATEST: u64 = 999_999_999_999_999_999;

/// The number of a decimal without needless zeros.
pub(crate) fn number(word: &[u8]) -> Option<u64>
    ensures number { result ≡ spec.number word.now }
    ensures small { IfSome result (λ n. n < 1000000000000000000) }
{
    read_decimal(word, GREATEST)
}

/// The method of a word, as a table has it.
pub(crate) fn method(word: &[u8]) -> Option<&'static str>
    ensures { option_copied result ≡ spec.method word.now }
{
    if word == b"round-robin".as_slice() {
        Some("round_robin")
    } else if word == b"ratio-member".as_slice() {
        Some("ratio")
    } else {
        None
    }
}
