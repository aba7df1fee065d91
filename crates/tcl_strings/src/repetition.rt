// A text repeated: `string repeat`.

ghost use Rattle.std.specs.Prelude.{◌≡◌, ◌≤◌, ◌*◌, IfOk, length};
ghost use Rattle.std.specs.List.{repeat};
ghost use Rattle.px_bytes.specs.Gives.{Gives};
ghost use Rattle.tcl_strings.specs.Repetition.{repeat_value, times};

use px_bytes::{M, Raise, TEXT_LIMIT, Text, number};
use std::alloc::Global;

/// The text so many times, and nothing for a count below 1; a fault where that is too long.
pub(crate) fn repeat(alloc: Global, text: &[u8], count: &[u8]) -> Result<Text, Raise>
    ensures { Gives result (repeat_value text.now count.now) }
{
    let count = times(number(alloc, count)?);
    match text.len().checked_mul(count) {
        Some(size) if size <= TEXT_LIMIT => Ok(repeated(alloc, text, count)?),
        _ => Raise::too_long(alloc),
    }
}

fn times(count: i64) -> usize
    ensures { result ≡ times count }
{
    usize::try_from(count).unwrap_or(0)
}

fn repeated(alloc: Global, text: &[u8], count: usize) -> M<Text>
    requires { length text.now * count ≤ 1048576 }
    ensures { IfOk result (λ t. t ≡ repeat count text.now) }
{
    let mut out = Vec::with_capacity(alloc, text.len() * count)?;
    if text.is_empty() {
        return Ok(Text::from_vec(out));
    }
    for _ in 0..count {
        out.extend_from_slice(text)?;
    }
    Ok(Text::from_vec(out))
}
