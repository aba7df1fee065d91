// The case of letters.

ghost use Rattle.std.specs.Prelude.{◌≡◌, IfOk};
ghost use Rattle.tcl_strings.specs.Case.{uppered};

use px_bytes::{M, Text};
use std::alloc::Global;

/// The bytes with `a` to `z` in upper case.
pub(crate) fn upper(alloc: Global, bytes: &[u8]) -> M<Text>
    ensures { IfOk result (λ text. text ≡ uppered bytes.now) }
{
    let out: Vec<u8> = bytes
        .iter()
        .map(|byte| byte.to_ascii_uppercase())
        .collect(alloc)?;
    Ok(Text::from_vec(out))
}
