// The line of a configuration's text where a key stands.

ghost use Rattle.std.specs.Prelude.{◌≡◌, ◌+◌, ◌<◌, ◌^◌, IfOk, decimal, map, option_copied};
ghost use Rattle.std.specs.Str.{bytes_eq};
ghost use Rattle.config.specs.KeyLines.{behind_header, behind_line, first_seen, is_behind_key};
ghost use Rattle.config.specs.KeyLines.{is_header, is_key, key_path, key_spot, line_from};
ghost use Rattle.config.specs.KeyLines.{line_spot, lines_of, opens, path_view, spot_of};
ghost use Rattle.config.specs.KeyLines.{stands_first, switched, turned, with_line};

use crate::around::around;
use crate::fault::ConfigFault;
use crate::spot::{Source, Spot};
use px_bytes::{M, Text};
use std::alloc::{AllocError, Global};

/// A key of a table, as the place of a fault tells it.
#[derive(Clone, Copy)]
pub(crate) struct KeyPath<'a> {
    /// The name of the array of tables, or of the key where it stands at the top.
    pub table: &'a [u8],
    /// The table's place in its array, in decimal; no bytes at the top.
    pub item: &'a [u8],
    pub key: &'a [u8],
}

/// What was seen in the lines before one.
#[derive(Clone, Copy)]
pub(crate) struct Seen {
    /// Whether the line stands inside of a text of several lines.
    pub in_text: bool,
    /// How many tables of the array begin before it.
    pub tables: usize,
    /// Whether it belongs to the table.
    pub is_inside: bool,
    /// The number of the line with which the table begins, from 0.
    pub header: Option<usize>,
}

// The key that a place tells, as `virtual[0].rules[1]`.
fn key_path(place: &[u8]) -> KeyPath<'_>
    ensures { path_view result ≡ key_path place.entry.now }
{
    let (head, rest) = around(b'.', place);
    let (table, behind) = around(b'[', head);
    let (item, _) = around(b']', behind);
    if item.is_empty() {
        return KeyPath {
            table,
            item,
            key: table,
        };
    }
    let (key, _) = around(b'[', around(b'.', rest).0);
    KeyPath { table, item, key }
}

fn lines_of(alloc: Global, text: &[u8]) -> Result<Vec<&[u8]>, AllocError>
    ensures { IfOk result (λ lines. map (λ line. line.now) lines.items ≡ lines_of text.now) }
{
    text.split(|byte| *byte == b'\n').collect(alloc)
}

fn opens(rest: &[u8]) -> bool
    ensures { result ≡ opens rest.now }
{
    rest.starts_with(b"'''") || rest.starts_with(b"\"\"\"")
}

// Whether a text of several lines goes on behind the first of these bytes.
fn switched(on: bool, rest: &[u8]) -> bool
    ensures { result ≡ switched on rest.now }
{
    if opens(rest) { !on } else { on }
}

// Whether a text of several lines goes on behind a line.
fn turned(in_text: bool, line: &[u8]) -> bool
    ensures { result ≡ turned in_text line.now }
{
    let mut on = in_text;
    let mut rest = line;
    while let [_, behind @ ..] = rest {
        on = switched(on, rest);
        rest = behind;
    }
    on
}

fn is_header(table: &[u8], line: &[u8]) -> bool
    ensures { result ≡ is_header table.now line.now }
{
    line.starts_with(b"[[") && around(b']', &line[2..]).0 == table
}

fn stands_first(key: &[u8], line: &[u8]) -> bool
    ensures { result ≡ stands_first key.now line.now }
{
    line.starts_with(key) && is_behind_key(line.get(key.len()))
}

fn is_behind_key(byte: Option<&u8>) -> bool
    ensures { result ≡ is_behind_key (option_copied byte.entry) }
{
    matches!(byte, Some(b' ' | b'\t' | b'='))
}

impl KeyPath<'_> {
    // Before the first line.
    fn first_seen(&self) -> Seen
        ensures { result ≡ first_seen (path_view self.now) }
    {
        Seen {
            in_text: false,
            tables: 0,
            is_inside: self.item.is_empty(),
            header: None,
        }
    }

    fn is_key(&self, seen: Seen, line: &[u8]) -> bool
        ensures { result ≡ is_key (path_view self.now) seen line.now }
    {
        seen.is_inside && !seen.in_text && stands_first(self.key, line)
    }

    fn is_item(&self, alloc: Global, tables: usize) -> M<bool>
        ensures { IfOk result (λ is. is ≡ bytes_eq (decimal tables) self.now.item.now) }
    {
        Ok(format!(in alloc; "{tables}")?.as_bytes() == self.item)
    }

    fn behind_header(&self, alloc: Global, seen: Seen, number: usize, line: &[u8]) -> M<Seen>
        ensures { IfOk result (λ s. s ≡ behind_header (path_view self.now) seen number line.now) }
    {
        if !is_header(self.table, line) {
            return Ok(Seen {
                is_inside: false,
                ..seen
            });
        }
        let is_inside = self.is_item(alloc, seen.tables)?;
        Ok(Seen {
            in_text: seen.in_text,
            tables: seen.tables.saturating_add(1),
            is_inside,
            header: if is_inside { Some(number) } else { seen.header },
        })
    }

    fn behind_line(&self, alloc: Global, seen: Seen, number: usize, line: &[u8]) -> M<Seen>
        ensures { IfOk result (λ s. s ≡ behind_line (path_view self.now) seen number line.now) }
    {
        if !seen.in_text && line.starts_with(b"[") {
            return self.behind_header(alloc, seen, number, line);
        }
        Ok(Seen {
            in_text: turned(seen.in_text, line),
            ..seen
        })
    }

    fn line_of(&self, alloc: Global, lines: &[&[u8]]) -> M<Option<usize>>
        ensures { IfOk result (λ found. found ≡ line_from (path_view self.now)
            (first_seen (path_view self.now)) 0 (map (λ line. line.now) lines.now)) }
    {
        let mut seen = self.first_seen();
        let mut number = 0;
        for line in lines {
            if self.is_key(seen, line) {
                return Ok(Some(number));
            }
            seen = self.behind_line(alloc, seen, number, line)?;
            number += 1;
        }
        Ok(seen.header)
    }
}

fn line_spot(alloc: Global, number: usize, line: &[u8]) -> M<Spot>
    requires { number + 1 < 2 ^ 64 }
    ensures { IfOk result (λ spot. spot ≡ line_spot number line.now) }
{
    Ok(Spot {
        source: Source::Key,
        line: number + 1,
        column: 1,
        text: Text::new(alloc, line)?,
    })
}

fn spot_of(alloc: Global, lines: &[&[u8]], number: usize) -> M<Option<Spot>>
    ensures { IfOk result (λ spot. spot ≡ spot_of (map (λ line. line.now) lines.now) number) }
{
    match lines.get(number) {
        Some(line) => Ok(Some(line_spot(alloc, number, line)?)),
        None => Ok(None),
    }
}

fn key_spot(alloc: Global, place: &[u8], lines: &[&[u8]]) -> M<Option<Spot>>
    ensures { IfOk result
        (λ spot. spot ≡ key_spot place.now (map (λ line. line.now) lines.now)) }
{
    match key_path(place).line_of(alloc, lines)? {
        Some(number) => spot_of(alloc, lines, number),
        None => Ok(None),
    }
}

/// The fault with the line where its key stands.
pub(crate) fn with_line(alloc: Global, bytes: &[u8], fault: ConfigFault) -> M<ConfigFault>
    ensures { IfOk result (λ told. told ≡ with_line bytes.now fault) }
{
    let lines = lines_of(alloc, bytes)?;
    let spot = key_spot(alloc, fault.place.as_bytes(), &lines)?;
    Ok(ConfigFault {
        kind: fault.kind,
        place: fault.place,
        spot,
    })
}
