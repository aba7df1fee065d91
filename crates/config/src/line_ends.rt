// Line ends.

ghost use Rattle.std.specs.Prelude.{◌≡◌, IfOk};
ghost use Rattle.config.specs.LineEnds.{is_return, without_returns};

use px_bytes::{M, Text};
use std::alloc::Global;

fn is_return(byte: u8, behind: &[u8]) -> bool
    ensures { result ≡ is_return byte behind.now }
{
    byte == b'\r' && matches!(behind, [b'\n', ..])
}

/// The bytes without each carriage return right before a line feed.
pub(crate) fn without_returns(alloc: Global, bytes: &[u8]) -> M<Text>
    ensures { IfOk result (λ text. text ≡ without_returns bytes.now) }
{
    let mut kept = Vec::with_capacity(alloc, bytes.len())?;
    let mut rest = bytes;
    while let [byte, behind @ ..] = rest {
        if !is_return(*byte, behind) {
            kept.push(*byte)?;
        }
        rest = behind;
    }
    Ok(Text::from_vec(kept))
}
