// The rows of the session table.

ghost use Rattle.std.specs.Prelude.{◌≡◌, IfOk, OnOk, map, option_map};
ghost use Rattle.session_table.specs.Tables.{new_table};
ghost use Rattle.test_past.specs.Rows.{asked, call_words, moment_behind, moment_from, row_holds};
ghost use Rattle.test_past.specs.Rows.{row_told, same_value, table_asked, table_behind};
ghost use Rattle.test_past.specs.Rows.{table_from, told};

use crate::entry::RunEntry;
use core_events::Event;
use px_bytes::{M, Reply, Text, Texts};
use session_table::SessionTable;
use std::alloc::Global;
use test_text::WishedRow;

// The table behind an entry.
fn answer(alloc: Global, table: &mut SessionTable, entry: &RunEntry) -> M<()>
    ensures { OnOk result (table.new ≡ table_behind entry.now table.old) }
{
    match entry {
        RunEntry::Called { moment, words } => {
            table.answer(alloc, words.as_slice(), *moment)?;
            Ok(())
        }
        _ => Ok(()),
    }
}

// The table that the calls left, of which no more rows than a limit may be live.
fn table_of(alloc: Global, rows: u32, entries: &[RunEntry]) -> M<SessionTable>
    ensures { IfOk result (λ table. table ≡ table_from (new_table rows) entries.now) }
{
    let mut table = SessionTable::new(alloc, rows);
    for entry in entries {
        answer(alloc, &mut table, entry)?;
    }
    Ok(table)
}

fn moment_behind(entry: &RunEntry, before: u64) -> u64
    ensures { result ≡ moment_behind entry.now before }
{
    match entry {
        RunEntry::Given(Event::Tick { moment }) => *moment,
        _ => before,
    }
}

// The moment of the last Tick.
fn moment_of(entries: &[RunEntry]) -> u64
    ensures { result ≡ moment_from 0 entries.now }
{
    let mut moment = 0;
    for entry in entries {
        moment = moment_behind(entry, moment);
    }
    moment
}

fn words_of(alloc: Global, words: &[&[u8]]) -> M<Texts>
    ensures { IfOk result (λ texts. texts ≡ map (λ w. w.now) words.entry.now) }
{
    let mut texts = Texts::new(alloc);
    for word in words {
        texts.push(Text::new(alloc, word)?)?;
    }
    Ok(texts)
}

// The words of a call on a row, of which the first is told.
fn call_words(alloc: Global, call: &[u8], subtable: &[u8], key: &[u8]) -> M<Texts>
    ensures { IfOk result (λ words. words ≡ call_words call.now subtable.now key.now) }
{
    words_of(alloc, &[call, b"-subtable", subtable, key])
}

// What a call on a row is replied at a moment; a fault says nothing.
fn asked(
    alloc: Global,
    table: &mut SessionTable,
    call: &[u8],
    subtable: &[u8],
    key: &[u8],
    moment: u64,
) -> M<Text>
    ensures text { IfOk result
        (λ reply. reply ≡ asked call.now subtable.now key.now moment table.old) }
    ensures after { OnOk result
        (table.new ≡ table_asked call.now subtable.now key.now moment table.old) }
{
    let words = call_words(alloc, call, subtable, key)?;
    match table.answer(alloc, words.as_slice(), moment)? {
        Reply::Ok(text) => Ok(text),
        Reply::Fault(_) => Ok(Text::empty(alloc)),
    }
}

// The value of a row; None where there is no such row.
fn told(
    alloc: Global,
    table: &mut SessionTable,
    subtable: &[u8],
    key: &[u8],
    moment: u64,
) -> M<Option<Text>>
    ensures { IfOk result (λ row. row ≡ told subtable.now key.now moment table.old) }
{
    let timeout = asked(alloc, table, b"timeout", subtable, key, moment)?;
    let value = asked(alloc, table, b"lookup", subtable, key, moment)?;
    if timeout.as_bytes().is_empty() {
        return Ok(None);
    }
    Ok(Some(value))
}

/// The value of a row at the present moment, by the calls that were answered; None where there is no
/// such row.
pub fn row_told(
    alloc: Global,
    rows: u32,
    subtable: &[u8],
    key: &[u8],
    entries: &[RunEntry],
) -> M<Option<Text>>
    ensures { IfOk result (λ row. row ≡ row_told rows subtable.now key.now entries.now) }
{
    let mut table = table_of(alloc, rows, entries)?;
    told(alloc, &mut table, subtable, key, moment_of(entries))
}

fn same_value(wished: Option<&Text>, told: Option<&Text>) -> bool
    ensures { result ≡ same_value (option_map (λ t. t.now) wished.entry)
        (option_map (λ t. t.now) told.entry) }
{
    match (wished, told) {
        (None, None) => true,
        (Some(text), Some(value)) => text.as_bytes() == value.as_bytes(),
        _ => false,
    }
}

/// Whether a row is as it is wished.
pub(crate) fn row_holds(alloc: Global, rows: u32, row: &WishedRow, entries: &[RunEntry]) -> M<bool>
    ensures { IfOk result (λ is. is ≡ row_holds rows row.now entries.now) }
{
    let told = row_told(
        alloc,
        rows,
        row.subtable.as_bytes(),
        row.key.as_bytes(),
        entries,
    )?;
    Ok(same_value(row.value.as_ref(), told.as_ref()))
}
