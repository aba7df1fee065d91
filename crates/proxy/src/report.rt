// The lines of a report besides those of notes.

ghost use Rattle.std.specs.Prelude.{◌≡◌, IfOk, string_bytes};
ghost use Rattle.proxy.specs.Report.{kind_number, refusal_number, client_text, server_text};
ghost use Rattle.proxy.specs.Report.{open_text, end_text};
ghost use Rattle.proxy.specs.Report.{text_fault, event_fault, plan_fault, mirror_differs};
ghost use Rattle.proxy.specs.Report.{config_fault, ok_text, second_config, second_place};
ghost use Rattle.proxy.specs.Report.{second_rule, usage_fault};

use journal_text::LineKind;
use proxy_core::BadEvent;
use px_bytes::{M, Text, print_hex};
use std::alloc::Global;

/// The bytes that a client took, in hexadecimal.
pub fn client_line(alloc: Global, conn: u32, bytes: &[u8]) -> M<Text>
    ensures { IfOk result (λ line. line ≡ client_text conn bytes.now) }
{
    let mut line = text_of(format!(in alloc; "> client {conn} ")?);
    line.push(print_hex(alloc, bytes)?.as_bytes())?;
    line.push(b"\n")?;
    Ok(line)
}

/// The bytes that a server connection took, in hexadecimal. `number` counts those of one client
/// from 1.
pub fn server_line(alloc: Global, conn: u32, number: usize, bytes: &[u8]) -> M<Text>
    ensures { IfOk result (λ line. line ≡ server_text conn number bytes.now) }
{
    let mut line = text_of(format!(in alloc; "> server {conn} {number} ")?);
    line.push(print_hex(alloc, bytes)?.as_bytes())?;
    line.push(b"\n")?;
    Ok(line)
}

/// What is pending on a connection that is live at the end, in bytes.
pub fn open_line(alloc: Global, conn: u32, to_client: usize, to_server: usize) -> M<Text>
    ensures { IfOk result (λ line. line ≡ open_text conn to_client to_server) }
{
    Ok(text_of(format!(in alloc; "> open {conn} {to_client} {to_server}\n")?))
}

/// The last line, with the number of events that were accepted.
pub fn end_line(alloc: Global, events: u64) -> M<Text>
    ensures { IfOk result (λ line. line ≡ end_text events) }
{
    Ok(text_of(format!(in alloc; "> end {events}\n")?))
}

/// A line of the schedule, the first being 1, spells no event.
pub fn text_fault_line(alloc: Global, line: u64, kind: LineKind) -> M<Text>
    ensures { IfOk result (λ text. text ≡ text_fault line kind) }
{
    let number = kind_number(kind);
    Ok(text_of(format!(in alloc; "> fault line {line} text {number}\n")?))
}

fn kind_number(kind: LineKind) -> u8
    ensures { result ≡ kind_number kind }
{
    kind as u8
}

/// The event of a line of the schedule, the first being 1, was refused.
pub fn event_fault_line(alloc: Global, line: u64, why: BadEvent) -> M<Text>
    ensures { IfOk result (λ text. text ≡ event_fault line why) }
{
    let number = refusal_number(why);
    Ok(text_of(format!(in alloc; "> fault line {line} event {number}\n")?))
}

fn refusal_number(why: BadEvent) -> u8
    ensures { result ≡ refusal_number why }
{
    why as u8
}

/// A text is no configuration in the second grammar, of which this fault stands at this place.
pub fn second_place_line(alloc: Global, number: u8, place: usize) -> M<Text>
    ensures { IfOk result (λ text. text ≡ second_place number place) }
{
    Ok(text_of(format!(in alloc; "tmsh fault {number} at {place}\n")?))
}

/// The table of a text has this fault.
pub fn second_config_line(alloc: Global, number: u8, place: &[u8]) -> M<Text>
    ensures { IfOk result (λ text. text ≡ second_config number place.now) }
{
    let mut line = text_of(format!(in alloc; "tmsh fault 3 at config {number} at ")?);
    line.push(place)?;
    line.push(b"\n")?;
    Ok(line)
}

/// A configuration has no second text, for the text of this rule.
pub fn second_rule_line(alloc: Global, number: u8, rule: usize) -> M<Text>
    ensures { IfOk result (λ text. text ≡ second_rule number rule) }
{
    Ok(text_of(format!(in alloc; "tmsh fault {number} at rule[{rule}]\n")?))
}

/// A mirror can't go on: of a line of its plan, 1: the packet wasn't sent yet; of a line of its record, 2: the moment
/// falls, or is too large.
pub fn plan_fault_line(alloc: Global, line: u64, number: u8) -> M<Text>
    ensures { IfOk result (λ text. text ≡ plan_fault line number) }
{
    Ok(text_of(format!(in alloc; "> fault line {line} plan {number}\n")?))
}

/// The standby's reply to the entry of this number, the first being 1, isn't the record's.
pub fn mirror_differs_line(alloc: Global, number: usize) -> M<Text>
    ensures { IfOk result (λ text. text ≡ mirror_differs number) }
{
    Ok(text_of(format!(in alloc; "> mirror differs {number}\n")?))
}

/// A configuration doesn't load: the kind of its fault, and the place of it.
pub fn config_fault_line(alloc: Global, kind: u8, place: &[u8]) -> M<Text>
    ensures { IfOk result (λ line. line ≡ config_fault kind place.now) }
{
    let mut line = text_of(format!(in alloc; "config fault {kind} at ")?);
    line.push(place)?;
    line.push(b"\n")?;
    Ok(line)
}

/// A configuration loads.
pub fn ok_line() -> &'static [u8]
    ensures { result.now ≡ ok_text }
{
    b"ok\n"
}

/// The words of the command line are no command.
pub fn usage_fault_line() -> &'static [u8]
    ensures { result.now ≡ usage_fault }
{
    b"usage fault\n"
}

fn text_of(line: String) -> Text
    ensures { result ≡ string_bytes line }
{
    Text::from_vec(line.into_bytes())
}
