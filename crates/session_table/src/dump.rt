// The rows of a table as lines.

ghost use Rattle.std.specs.Prelude.{◌≡◌, ◌++◌, IfOk, OnOk, string_bytes};
ghost use Rattle.std.specs.List.Sorted.{IsStrictlySortedBy};
ghost use Rattle.session_table.specs.Dump.{dump_text, names_text, row_cmp, row_line, time_text};
ghost use Rattle.session_table.specs.Dump.{times_text};
ghost use Rattle.session_table.specs.declared.row.TableRow.{TableRow};
ghost use Rattle.session_table.specs.Stored.{named, rows_of};

use crate::TableRow;
use crate::stored::{Key, Stored};
use px_bytes::{M, Text, print_hex};
use std::alloc::Global;

/// A line for each row, by their subtables and keys.
pub(crate) fn dump(alloc: Global, rows: &Stored) -> M<Text>
    ensures text { IfOk result (λ text. text ≡ dump_text (rows_of rows.now)) }
    ensures sorted { OnOk result (IsStrictlySortedBy row_cmp (rows_of rows.now)) }
{
    let mut text = Text::empty(alloc);
    for key in rows.keys() {
        if let Some(row) = rows.get(key) {
            push_row(alloc, &mut text, key, row)?;
        }
    }
    Ok(text)
}

fn push_row(alloc: Global, text: &mut Text, key: &Key, row: &TableRow) -> M<()>
    ensures { OnOk result (text.new ≡ text.old
        ++ row_line (named key.now.0.items key.now.1.items row.now)) }
{
    text.push(row_line(alloc, key, row)?.as_bytes())
}

// The line of a row under a key.
fn row_line(alloc: Global, key: &Key, row: &TableRow) -> M<Text>
    ensures { IfOk result
        (λ line. line ≡ row_line (named key.now.0.items key.now.1.items row.now)) }
{
    let mut line = names_text(alloc, key, &row.text)?;
    line.push(times_text(alloc, row)?.as_bytes())?;
    Ok(line)
}

fn names_text(alloc: Global, key: &Key, value: &Text) -> M<Text>
    ensures { IfOk result (λ text. (row : TableRow) → row.text ≡ value.now
        → text ≡ names_text (named key.now.0.items key.now.1.items row)) }
{
    let mut text = Text::new(alloc, b"> row ")?;
    text.push(print_hex(alloc, &key.0)?.as_bytes())?;
    text.push(b" ")?;
    text.push(print_hex(alloc, &key.1)?.as_bytes())?;
    text.push(b" ")?;
    text.push(print_hex(alloc, value.as_bytes())?.as_bytes())?;
    Ok(text)
}

fn times_text(alloc: Global, row: &TableRow) -> M<Text>
    ensures { IfOk result (λ text. text ≡ times_text row.now) }
{
    let (created, touched) = (row.created, row.touched);
    let mut text = Text::new(alloc, b" ")?;
    text.push(time_text(alloc, row.times.timeout)?.as_bytes())?;
    text.push(b" ")?;
    text.push(time_text(alloc, row.times.lifetime)?.as_bytes())?;
    text.push(format!(in alloc; " {created} {touched}\n")?.as_bytes())?;
    Ok(text)
}

fn time_text(alloc: Global, seconds: Option<u32>) -> M<Text>
    ensures { IfOk result (λ text. text ≡ time_text seconds) }
{
    match seconds {
        Some(seconds) => Ok(Text::from_vec(format!(in alloc; "{seconds}")?.into_bytes())),
        None => Text::new(alloc, b"indefinite"),
    }
}
