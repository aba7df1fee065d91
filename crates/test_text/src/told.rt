// The line that tells what is wrong with a test file.

ghost use Rattle.std.specs.Prelude.{◌≡◌, IfOk};
ghost use Rattle.test_text.specs.Files.{fault_line};

use crate::fault::TestFault;
use px_bytes::{M, Text};
use std::alloc::Global;
use text_places::{column_of, line_of};

/// What is wrong with the text of a file of this name, in a line without its end: the name, the
/// line, the column and what it is, with colons between.
pub fn fault_line(alloc: Global, name: &[u8], text: &[u8], fault: TestFault) -> M<Text>
    ensures { IfOk result (λ line. line ≡ fault_line name.now text.now fault) }
{
    let mut line = Text::new(alloc, name)?;
    let row = line_of(text, fault.place);
    let column = column_of(text, fault.place);
    line.push(format!(in alloc; ":{row}:{column}: ")?.as_bytes())?;
    line.push(fault.kind.words().as_bytes())?;
    Ok(line)
}
