// The command `sha256`.

ghost use Rattle.px_bytes.specs.Gives.{Gives};
ghost use Rattle.tcl_encodings.specs.Digest.{sha256_value};

use px_bytes::{Raise, Text};
use sha2::{Digest, Sha256};
use std::alloc::Global;

/// `sha256 TEXT`: the 32 bytes of the text's digest.
pub fn sha256(alloc: Global, arguments: &[Text]) -> Result<Text, Raise>
    ensures { Gives result (sha256_value arguments.now) }
{
    match arguments {
        [text] => Ok(Text::new(alloc, &Sha256::digest(text.as_bytes()))?),
        _ => Raise::arity(alloc, b"sha256"),
    }
}
