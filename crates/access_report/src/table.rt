// The text of a report.

ghost use Rattle.std.specs.Prelude.{◌≡◌, ◌++◌, ◌-◌, IfOk, length, OnOk};
ghost use Rattle.std.specs.Fmt.{decimal};
ghost use Rattle.access_report.specs.Table.{at_right, blanks, counts_row};

use crate::ServerCounts;
use px_bytes::{M, Text};
use std::alloc::Global;

/// The row of a virtual server.
pub fn counts_row(alloc: Global, name: &[u8], counts: ServerCounts) -> M<Text>
    ensures { IfOk result (λ row. row ≡ counts_row name.now counts) }
{
    let mut row = Text::new(alloc, name)?;
    add_blanks(&mut row, missing(24, name.len()))?;
    add_number(alloc, &mut row, 8, counts.conns)?;
    add_number(alloc, &mut row, 14, counts.bytes)?;
    add_number(alloc, &mut row, 8, counts.calls)?;
    add_number(alloc, &mut row, 8, counts.early)?;
    row.push(b"\n")?;
    Ok(row)
}

// A number at the right of so many places.
fn add_number(alloc: Global, row: &mut Text, places: usize, number: u128) -> M<()>
    ensures { OnOk result (row.new ≡ row.old ++ at_right places (decimal number)) }
{
    let digits = format!(in alloc; "{number}")?;
    add_blanks(row, missing(places, digits.len()))?;
    row.push(digits.as_bytes())
}

// How many places a text of this length leaves.
fn missing(places: usize, len: usize) -> usize
    ensures { result ≡ places - len }
{
    places.saturating_sub(len)
}

fn add_blanks(row: &mut Text, n: usize) -> M<()>
    ensures { OnOk result (row.new ≡ row.old ++ blanks n) }
{
    for _done in 0..n {
        row.push(b" ")?;
    }
    Ok(())
}
