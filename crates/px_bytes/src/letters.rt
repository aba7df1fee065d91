// Letters of ASCII without their case.

ghost use Rattle.std.specs.Prelude.{◌≡◌, ◌↔◌, IfOk, IsTrue};
ghost use Rattle.px_bytes.specs.Letters.{lowered};

use crate::{M, Text};
use std::alloc::Global;

/// The bytes with `A` to `Z` in lower case.
pub fn lower(alloc: Global, bytes: &[u8]) -> M<Text>
    ensures { IfOk result (λ text. text ≡ lowered bytes.now) }
{
    let out: Vec<u8> = bytes
        .iter()
        .map(|byte| byte.to_ascii_lowercase())
        .collect(alloc)?;
    Ok(Text::from_vec(out))
}

/// Whether two names are the same but for the case of their letters. It takes no memory.
pub fn same_name(a: &[u8], b: &[u8]) -> bool
    ensures { IsTrue result ↔ (lowered a.now ≡ lowered b.now) }
{
    if a.len() != b.len() {
        return false;
    }
    for (x, y) in a.iter().zip(b) {
        if !x.eq_ignore_ascii_case(y) {
            return false;
        }
    }
    true
}
