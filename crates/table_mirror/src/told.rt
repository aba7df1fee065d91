// Which line of a record tells something.

ghost use Rattle.std.specs.Prelude.{◌≡◌, ◌<◌, IfOk, length, List, map, Some};
ghost use Rattle.std.specs.List.{slice_split};
ghost use Rattle.journal_value.specs.Journal.{IsJournal, is_lf};
ghost use Rattle.journal_value.specs.declared.journal.JournalLine.{JournalLine};
ghost use Rattle.table_mirror.specs.Plans.{is_comment};
ghost use Rattle.table_mirror.specs.Told.{number_told};

use px_bytes::M;
use std::alloc::{AllocError, Global};

/// The number of the line of a record that tells the thing of a place, the first line being 1 and the
/// first place 0.
pub fn told_line(alloc: Global, record: &[u8], place: usize) -> M<u64>
    ensures { IfOk result (λ line. (told : List JournalLine) → IsJournal record.now told
        → place < length told → number_told (slice_split is_lf record.now) place ≡ Some line) }
{
    let lines = lines_of(alloc, record)?;
    Ok(number_told(&lines, place).unwrap_or(0))
}

/// What stands before, between and behind the LFs.
pub(crate) fn lines_of(alloc: Global, text: &[u8]) -> Result<Vec<&[u8]>, AllocError>
    ensures { IfOk result
        (λ lines. map (λ line. line.now) lines.items ≡ slice_split is_lf text.now) }
{
    text.split(|byte| is_lf(*byte)).collect(alloc)
}

fn is_lf(byte: u8) -> bool
    ensures { result ≡ is_lf byte }
{
    byte == b'\n'
}

fn number_told(lines: &[&[u8]], place: usize) -> Option<u64>
    ensures { result ≡ number_told (map (λ line. line.now) lines.now) place }
{
    let mut left = place;
    for (index, line) in lines.iter().enumerate() {
        if !is_comment(line) {
            if left == 0 {
                return Some(index as u64 + 1);
            }
            left -= 1;
        }
    }
    None
}

/// Whether a line says nothing.
pub(crate) fn is_comment(line: &[u8]) -> bool
    ensures { result ≡ is_comment line.now }
{
    matches!(line, [] | [b'#', ..])
}
