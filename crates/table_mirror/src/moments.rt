// The moments of a history, which never fall.

ghost use Rattle.std.specs.Prelude.{◌≡◌};
ghost use Rattle.table_mirror.specs.Pushed.{is_out, moment_of, out_of_order};

use core_events::Note;
use journal_value::JournalLine;

/// The last moment that an entry may have.
const MOST: u64 = 1 << 53;

/// The place among what a journal tells of the first entry whose moment lies before an earlier one's, or
/// above 2^53.
pub fn out_of_order(told: &[JournalLine]) -> Option<usize>
    ensures { result ≡ out_of_order 0 told.now }
{
    let mut last = 0;
    for (place, line) in told.iter().enumerate() {
        let Some(moment) = moment_of(line) else {
            continue;
        };
        if moment < last || moment > MOST {
            return Some(place);
        }
        last = moment;
    }
    None
}

fn moment_of(line: &JournalLine) -> Option<u64>
    ensures { result ≡ moment_of line.now }
{
    match line {
        JournalLine::Note(Note::History { moment, .. }) => Some(*moment),
        _ => None,
    }
}
