// Where something stands in a test file.

ghost use Rattle.std.specs.Prelude.{◌≡◌, IfOk};
ghost use Rattle.rule_tests.specs.Places.{place_line};

use px_bytes::{M, Text};
use std::alloc::Global;
use text_places::{column_of, line_of};

/// `FILE:LINE:COLUMN: what is wrong`.
pub(crate) fn place_line(
    alloc: Global,
    name: &[u8],
    text: &[u8],
    place: usize,
    words: &str,
) -> M<Text>
    ensures { IfOk result (λ line. line ≡ place_line name.now text.now place words.now) }
{
    let (line, column) = (line_of(text, place), column_of(text, place));
    let mut told = Text::new(alloc, name)?;
    told.push(format!(in alloc; ":{line}:{column}: ")?.as_bytes())?;
    told.push(words.as_bytes())?;
    told.push(b"\n")?;
    Ok(told)
}
