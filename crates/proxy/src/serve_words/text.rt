// Words as text.

ghost use Rattle.std.specs.Prelude.{◌≡◌, All, IsUtf8, IfOk, IfSome, Ok, None, map};

use px_bytes::{M, Text};
use std::alloc::Global;

/// The words as text; None exactly where one isn't UTF-8.
pub fn as_text<'a>(alloc: Global, words: &'a [Text]) -> M<Option<Vec<&'a str>>>
    ensures some { IfOk result (λ o. IfSome o (λ v. map (λ t. t.now) v.items ≡ words.now)) }
    ensures utf8 { IfOk result (λ o. IfSome o (λ v. All IsUtf8 words.now)) }
    ensures none { result ≡ Ok None → ¬ (All IsUtf8 words.now) }
{
    let mut texts = Vec::new(alloc);
    for word in words {
        let Ok(text) = std::str::from_utf8(word.as_bytes()) else {
            return Ok(None);
        };
        texts.push(text)?;
    }
    Ok(Some(texts))
}
