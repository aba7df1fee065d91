// Why a configuration doesn't load, for a reader.

ghost use Rattle.std.specs.Prelude.{◌≡◌, IfOk, drop, map, take};
ghost use Rattle.proxy.specs.Explain.{addresses, explanation, fault_head, loads_text, said_text};
ghost use Rattle.proxy.specs.Explain.{joined, marked_line, shown_byte, shown_from, spot_head, spot_tail};
ghost use Rattle.proxy.specs.Explain.{fault_tail, line_head, place_head, rule_head, rule_spot};
ghost use Rattle.proxy.specs.Explain.{spot_place};

use crate::report::config_fault_line;
use crate::say::is_read_fault;
use config::{ConfigFault, Source, Spot, VirtualSettings};
use px_bytes::{M, Text, print_addr};
use std::alloc::Global;

/// How many bytes of a line are shown.
const SHOWN: usize = 160;

/// Up to which column a line is shown from its beginning.
const FROM_START: usize = 101;

// The parts, one behind another.
fn joined(alloc: Global, parts: &[&[u8]]) -> M<Text>
    ensures { IfOk result (λ text. text ≡ joined (map (λ part. part.now) parts.now)) }
{
    let mut text = Text::empty(alloc);
    for part in parts {
        text.push(part)?;
    }
    Ok(text)
}

// What a terminal is shown of a byte.
fn shown_byte(byte: u8) -> u8
    ensures { result ≡ shown_byte byte }
{
    match byte {
        b' '..=b'~' => byte,
        b'\t' => b' ',
        _ => b'?',
    }
}

fn shown(alloc: Global, bytes: &[u8]) -> M<Text>
    ensures { IfOk result (λ text. text ≡ map shown_byte bytes.now) }
{
    let out: Vec<u8> = bytes.iter().map(|byte| shown_byte(*byte)).collect(alloc)?;
    Ok(Text::from_vec(out))
}

// A blank for each byte.
fn blanks(alloc: Global, bytes: &[u8]) -> M<Text>
    ensures { IfOk result (λ text. text ≡ map (λ byte. 32) bytes.now) }
{
    let out: Vec<u8> = bytes.iter().map(|_byte| b' ').collect(alloc)?;
    Ok(Text::from_vec(out))
}

fn behind(text: &[u8], from: usize) -> &[u8]
    ensures { result.now ≡ drop from text.now }
{
    text.get(from..).unwrap_or(b"")
}

fn front(text: &[u8], len: usize) -> &[u8]
    ensures { result.now ≡ take len text.now }
{
    text.get(..len).unwrap_or(text)
}

// A line of a text, and a mark under the byte of a column.
fn marked_line(alloc: Global, text: &[u8], column: usize) -> M<Text>
    ensures { IfOk result (λ lines. lines ≡ marked_line text.now column) }
{
    let from = column.saturating_sub(FROM_START);
    let rest = behind(text, from);
    let line = shown(alloc, front(rest, SHOWN))?;
    let before = blanks(
        alloc,
        front(rest, column.saturating_sub(1).saturating_sub(from)),
    )?;
    joined(
        alloc,
        &[
            b"    ",
            line.as_bytes(),
            b"\n    ",
            before.as_bytes(),
            b"^\n",
        ],
    )
}

// What the reader of TOML says.
fn said_text(alloc: Global, source: &Source) -> M<Text>
    ensures { IfOk result (λ text. text ≡ said_text source.now) }
{
    match source {
        Source::Document(said) => joined(alloc, &[b": ", said.as_bytes()]),
        Source::Rule(_) | Source::File(_) | Source::Key => Ok(Text::empty(alloc)),
    }
}

fn spot_tail(alloc: Global, spot: &Spot) -> M<Text>
    ensures { IfOk result (λ text. text ≡ spot_tail spot.now) }
{
    let said = said_text(alloc, &spot.source)?;
    let line = marked_line(alloc, spot.text.as_bytes(), spot.column)?;
    joined(alloc, &[said.as_bytes(), b"\n", line.as_bytes()])
}

fn fault_tail(alloc: Global, spot: &Option<Spot>) -> M<Text>
    ensures { IfOk result (λ text. text ≡ fault_tail spot.now) }
{
    match spot {
        Some(spot) => spot_tail(alloc, spot),
        None => Text::new(alloc, b"\n"),
    }
}

fn spot_place(alloc: Global, line: usize, column: usize) -> M<Text>
    ensures { IfOk result (λ text. text ≡ spot_place line column) }
{
    let place = format!(in alloc; ":{line}:{column}: ")?;
    Ok(Text::from_vec(place.into_bytes()))
}

// A place of a file, as editors read it.
fn place_head(alloc: Global, file: &[u8], line: usize, column: usize) -> M<Text>
    ensures { IfOk result (λ text. text ≡ place_head file.now line column) }
{
    let place = spot_place(alloc, line, column)?;
    joined(alloc, &[file, place.as_bytes()])
}

fn rule_spot(alloc: Global, at: usize, line: usize, column: usize) -> M<Text>
    ensures { IfOk result (λ text. text ≡ rule_spot at line column) }
{
    let place = format!(in alloc; ": rule[{at}], line {line}, column {column} of its text: ")?;
    Ok(Text::from_vec(place.into_bytes()))
}

// A place of the text of a rule in the configuration.
fn rule_head(alloc: Global, config: &[u8], at: usize, line: usize, column: usize) -> M<Text>
    ensures { IfOk result (λ text. text ≡ rule_head config.now at line column) }
{
    let place = rule_spot(alloc, at, line, column)?;
    joined(alloc, &[config, place.as_bytes()])
}

// A place of the configuration's file where a key stands.
fn line_head(alloc: Global, config: &[u8], key: &[u8], line: usize, column: usize) -> M<Text>
    ensures { IfOk result (λ text. text ≡ line_head config.now key.now line column) }
{
    let place = place_head(alloc, config, line, column)?;
    joined(alloc, &[place.as_bytes(), key, b": "])
}

// Where it is, for a reader and an editor.
fn spot_head(alloc: Global, config: &[u8], key: &[u8], spot: &Spot) -> M<Text>
    ensures { IfOk result (λ text. text ≡ spot_head config.now key.now spot.now) }
{
    let (line, column) = (spot.line, spot.column);
    match &spot.source {
        Source::Document(_) => place_head(alloc, config, line, column),
        Source::File(name) => place_head(alloc, name.as_bytes(), line, column),
        Source::Key => line_head(alloc, config, key, line, column),
        Source::Rule(at) => rule_head(alloc, config, *at, line, column),
    }
}

fn fault_head(alloc: Global, config: &[u8], fault: &ConfigFault) -> M<Text>
    ensures { IfOk result (λ text. text ≡ fault_head config.now fault.now) }
{
    let place = fault.place.as_bytes();
    match &fault.spot {
        Some(spot) => spot_head(alloc, config, place, spot),
        None => {
            if is_read_fault(fault.kind) {
                joined(alloc, &[place, b": "])
            } else {
                joined(alloc, &[config, b": ", place, b": "])
            }
        }
    }
}

/// What is wrong with a configuration: as `check` tells it, in words, and the line with a mark where
/// there is one.
pub fn explanation(alloc: Global, config: &[u8], fault: &ConfigFault) -> M<Text>
    ensures { IfOk result (λ text. text ≡ explanation config.now fault.now) }
{
    let line = config_fault_line(alloc, fault.kind.number(), fault.place.as_bytes())?;
    let head = fault_head(alloc, config, fault)?;
    let tail = fault_tail(alloc, &fault.spot)?;
    let words = fault.kind.words().as_bytes();
    joined(
        alloc,
        &[line.as_bytes(), head.as_bytes(), words, tail.as_bytes()],
    )
}

// The addresses at which virtual servers listen.
fn addresses(alloc: Global, servers: &[VirtualSettings]) -> M<Text>
    ensures { IfOk result (λ text. text ≡ addresses servers.now) }
{
    let mut text = Text::empty(alloc);
    for server in servers {
        text.push(b" ")?;
        text.push(print_addr(alloc, server.listen)?.as_bytes())?;
    }
    Ok(text)
}

/// A configuration loads.
pub fn loads_line(alloc: Global, config: &[u8], servers: &[VirtualSettings]) -> M<Text>
    ensures { IfOk result (λ text. text ≡ loads_text config.now servers.now) }
{
    let addresses = addresses(alloc, servers)?;
    joined(
        alloc,
        &[
            config,
            b" loads; it listens at:",
            addresses.as_bytes(),
            b"\n",
        ],
    )
}
