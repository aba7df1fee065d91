// Rows under their keys, as they are stored: the names stand in the keys alone.

ghost use Rattle.std.specs.Prelude.{◌≡◌, [], None, IfOk, OnOk, OnErr};
ghost use Rattle.std.specs.Map.{lookup};
ghost use Rattle.std.specs.BTreeMap.{insert_entry};
ghost use Rattle.session_table.specs.Stored.{KeepsRow, due, ends, goes, is_key, key_cmp, named};
ghost use Rattle.session_table.specs.Stored.{put_kept, sooner};

use crate::kept::kept;
use crate::request::RowCall;
use crate::{TableRow, Times};
use px_bytes::{M, Raise, Text};
use std::alloc::Global;
use timed_rows::Rows;

/// A subtable, and a key of it.
pub(crate) type Key = (Vec<u8>, Vec<u8>);

/// Rows without their names.
pub(crate) type Stored = Rows<Key, TableRow>;

/// The key of these names.
pub(crate) fn key_named(alloc: Global, subtable: &[u8], key: &[u8]) -> M<Key>
    ensures subtable { IfOk result (λ k. k.0.items ≡ subtable.now) }
    ensures key { IfOk result (λ k. k.1.items ≡ key.now) }
{
    Ok((
        Vec::from_slice(alloc, subtable)?,
        Vec::from_slice(alloc, key)?,
    ))
}

/// A row without names, text and end.
pub(crate) fn blank(alloc: Global) -> TableRow
    ensures { due result ≡ None }
{
    TableRow {
        subtable: Text::empty(alloc),
        key: Text::empty(alloc),
        text: Text::empty(alloc),
        times: Times {
            timeout: None,
            lifetime: None,
        },
        created: 0,
        touched: 0,
    }
}

/// Adds a row under a key that has none.
pub(crate) fn insert(alloc: Global, rows: &mut Stored, key: Key, row: TableRow) -> M<()>
    requires { lookup (is_key key.0.items key.1.items) rows.old ≡ None }
    ensures ok { OnOk result
        (rows.new ≡ insert_entry key_cmp rows.old key (named [] [] row, due row)) }
    ensures err { OnErr result (rows.new ≡ rows.old) }
{
    let again = key_named(alloc, &key.0, &key.1)?;
    let due = due(&row);
    rows.insert(key, again, bare(alloc, row), due)?;
    Ok(())
}

/// A call on the row of a key, which was taken out of its place.
pub(crate) fn keep(
    alloc: Global,
    rows: &mut Stored,
    key: &Key,
    mut row: TableRow,
    call: RowCall,
    moment: u64,
) -> Result<Text, Raise>
    ensures { KeepsRow result call moment key.now.0.items key.now.1.items row rows.old rows.new }
{
    let reply = kept(alloc, call.touches, call.act, moment, &mut row);
    let goes = goes(&reply, row.is_live(moment));
    put_kept(rows, key, goes, row);
    reply
}

fn goes(reply: &Result<Text, Raise>, live: bool) -> bool
    ensures { result ≡ goes reply.now live }
{
    match reply {
        Ok(_) => !live,
        Err(_) => false,
    }
}

fn put_kept(rows: &mut Stored, key: &Key, goes: bool, row: TableRow)
    ensures { rows.new ≡ put_kept key.now.0.items key.now.1.items goes row rows.old }
{
    if goes {
        rows.remove(key);
    } else {
        let due = due(&row);
        rows.replace(key, row, due);
    }
}

// A row without its names.
fn bare(alloc: Global, row: TableRow) -> TableRow
    ensures { result ≡ named [] [] row }
{
    TableRow {
        subtable: Text::empty(alloc),
        key: Text::empty(alloc),
        ..row
    }
}

// The deadline of a row, none where it is later than moments are.
fn due(row: &TableRow) -> Option<u64>
    ensures { result ≡ due row.now }
{
    sooner(
        ends(row.times.timeout, row.touched),
        ends(row.times.lifetime, row.created),
    )
}

fn ends(seconds: Option<u32>, since: u64) -> Option<u64>
    ensures { result ≡ ends seconds since }
{
    match seconds {
        Some(seconds) => since.checked_add(1000 * u64::from(seconds)),
        None => None,
    }
}

fn sooner(a: Option<u64>, b: Option<u64>) -> Option<u64>
    ensures { result ≡ sooner a b }
{
    match (a, b) {
        (Some(a), Some(b)) => Some(if a < b { a } else { b }),
        (Some(a), None) => Some(a),
        (None, b) => b,
    }
}
