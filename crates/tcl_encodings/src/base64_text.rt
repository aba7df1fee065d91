// The commands `b64encode` and `b64decode`.

ghost use Rattle.px_bytes.specs.Gives.{Gives};
ghost use Rattle.tcl_encodings.specs.Base64Text.{b64decode_value, b64encode_value, decoded};
ghost use Rattle.tcl_encodings.specs.Base64Text.{encoded};
ghost use Rattle.px_bytes.specs.Limit.{limited};

use base64::DecodeAllocError;
use base64::engine::general_purpose::STANDARD;
use px_bytes::{Raise, TEXT_LIMIT, Text};
use std::alloc::Global;

/// The most bytes whose encoding, of four for each three, isn't too long.
const PLAIN_LIMIT: usize = TEXT_LIMIT / 4 * 3;

/// `b64encode TEXT`: the text in standard base64, with padding.
pub fn b64encode(alloc: Global, arguments: &[Text]) -> Result<Text, Raise>
    ensures { Gives result (b64encode_value arguments.now) }
{
    match arguments {
        [text] => encoded(alloc, text.as_bytes()),
        _ => Raise::arity(alloc, b"b64encode"),
    }
}

fn encoded(alloc: Global, bytes: &[u8]) -> Result<Text, Raise>
    ensures { Gives result (limited (encoded bytes.now)) }
{
    if bytes.len() > PLAIN_LIMIT {
        return Raise::too_long(alloc);
    }
    let text = STANDARD.encode(alloc, bytes)?;
    Ok(Text::from_vec(text.into_bytes()))
}

/// `b64decode TEXT`: the bytes whose standard base64, with padding, the text is; and the empty text
/// where it isn't such a text.
pub fn b64decode(alloc: Global, arguments: &[Text]) -> Result<Text, Raise>
    ensures { Gives result (b64decode_value arguments.now) }
{
    match arguments {
        [text] => decoded(alloc, text.as_bytes()),
        _ => Raise::arity(alloc, b"b64decode"),
    }
}

// What a text decodes to is shorter than the text.
fn decoded(alloc: Global, text: &[u8]) -> Result<Text, Raise>
    ensures { Gives result (limited (decoded text.now)) }
{
    match STANDARD.decode(alloc, text) {
        Ok(bytes) if bytes.len() > TEXT_LIMIT => Raise::too_long(alloc),
        Ok(bytes) => Ok(Text::from_vec(bytes)),
        Err(DecodeAllocError::DecodeError(_)) => Ok(Text::empty(alloc)),
        Err(DecodeAllocError::OutOfMemory) => Err(Raise::Memory),
    }
}
