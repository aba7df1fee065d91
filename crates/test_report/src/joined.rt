// Texts of parts.

ghost use Rattle.std.specs.Prelude.{◌≡◌, IfOk, map};
ghost use Rattle.std.specs.Fmt.{decimal};
ghost use Rattle.test_report.specs.Parts.{joined};

use px_bytes::{M, Text};
use std::alloc::Global;

/// The parts, one behind another.
pub(crate) fn joined(alloc: Global, parts: &[&[u8]]) -> M<Text>
    ensures { IfOk result (λ text. text ≡ joined (map (λ part. part.now) parts.now)) }
{
    let mut text = Text::empty(alloc);
    for part in parts {
        text.push(part)?;
    }
    Ok(text)
}

pub(crate) fn print_number(alloc: Global, number: usize) -> M<Text>
    ensures { IfOk result (λ text. text ≡ decimal number) }
{
    Ok(Text::from_vec(format!(in alloc; "{number}")?.into_bytes()))
}
