// The value of an element that isn't in braces.

ghost use Rattle.std.specs.Prelude.{◌≡◌, ◌==◌, IfOk};
ghost use Rattle.std.specs.List.{position_or_len};
ghost use Rattle.tcl_lists.specs.Escape.{replaced};

use crate::escape::read_escape;
use px_bytes::{M, Text};
use std::alloc::Global;

/// The bytes with each backslash and what it takes replaced.
pub(crate) fn replaced(alloc: Global, raw: &[u8]) -> M<Text>
    ensures { IfOk result (λ text. text ≡ replaced raw.now) }
{
    let mut out = Vec::with_capacity(alloc, raw.len())?;
    let mut rest = raw;
    loop {
        let (plain, other) = rest.split_at(plain_len(rest));
        out.extend_from_slice(plain)?;
        let [_, behind @ ..] = other else {
            return Ok(Text::from_vec(out));
        };
        let escape = read_escape(behind);
        out.push(escape.byte)?;
        rest = &behind[escape.taken..];
    }
}

// How many bytes stand before the first backslash.
fn plain_len(bytes: &[u8]) -> usize
    ensures { result ≡ position_or_len (λ byte. byte == 92) bytes.now }
{
    bytes
        .iter()
        .position(|byte| *byte == b'\\')
        .unwrap_or(bytes.len())
}
