// The report.

ghost use Rattle.std.specs.Prelude.{◌≡◌, ◌++◌, ◌∷◌, codes, flat_map, IfErr, IfOk, List, map, OnOk};
ghost use Rattle.std.specs.Cmp.Lexicographic.{slice_cmp};
ghost use Rattle.std.specs.List.Sorted.{IsStrictlySortedBy};
ghost use Rattle.std.specs.Ordering.{nat_cmp};
ghost use Rattle.access_report.specs.Table.{ReportsRecord, counts_row, header};
ghost use Rattle.access_report.specs.Tallies.{Tallies, TalliesRecord};
ghost use Rattle.journal_value.specs.Journal.{FirstFault};
ghost use Rattle.journal_value.specs.declared.journal.JournalLine.{JournalLine};

use crate::table::counts_row;
use crate::tally::Tally;
use journal_value::{JournalLine, JournalReader, LineFault};
use px_bytes::{M, Text};
use std::alloc::Global;

/// The report of a journal: for each virtual server that an accepted connection names, and for all
/// together, the connections, the bytes that their clients took, their shared calls and their early
/// ends. Its lines are read one after another, and none is kept.
pub fn report_of(alloc: Global, text: &[u8]) -> Result<Text, LineFault>
    ensures report { IfOk result (ReportsRecord text.now) }
    ensures fault { IfErr result (FirstFault text.now) }
{
    let tally = tally_of(alloc, text)?;
    Ok(table_text(alloc, &tally)?)
}

// The header, the rows and the last row.
fn table_text(alloc: Global, tally: &Tally) -> M<Text>
    ensures table { IfOk result (λ text. text
        ≡ header ++ flat_map (λ row. counts_row row.0 row.1) tally.now.rows
        ++ counts_row (codes "total") tally.now.total) }
    ensures sorted { IfOk result (λ text. IsStrictlySortedBy (slice_cmp nat_cmp)
        (map (λ row. row.0) tally.now.rows)) }
{
    let mut text = Text::new(alloc, header())?;
    text.push(tally.rows.lines(alloc)?.as_bytes())?;
    text.push(counts_row(alloc, b"total", tally.total)?.as_bytes())?;
    Ok(text)
}

fn header() -> &'static [u8]
    ensures { result.now ≡ header }
{
    b"virtual                    conns         bytes   calls   early\n"
}

// What all lines count.
fn tally_of(alloc: Global, text: &[u8]) -> Result<Tally, LineFault>
    ensures tallies { IfOk result (TalliesRecord text.now) }
    ensures fault { IfErr result (FirstFault text.now) }
{
    let mut reader = JournalReader::new(text);
    let mut tally = Tally::new(alloc);
    while let Some(line) = reader.next(alloc)? {
        count(alloc, &mut tally, line)?;
    }
    Ok(tally)
}

// Counts one more line, which goes with that.
fn count(alloc: Global, tally: &mut Tally, line: JournalLine) -> M<()>
    ensures { OnOk result ((past : List JournalLine) → Tallies past tally.old
        → Tallies (line ∷ past) tally.new) }
{
    tally.add(alloc, &line)
}
