// Events as lines.

ghost use Rattle.std.specs.Prelude.{◌≡◌, ◌++◌, ◌∷◌, map, IfOk, OnOk};
ghost use Rattle.std.specs.Fmt.{decimal};
ghost use Rattle.journal_text.specs.Form.{field_text, fields, health_text, verb_of};
ghost use Rattle.journal_text.specs.Line.{event_line, spaced};

use crate::EventVerb;
use core_events::Event;
use px_bytes::{Addr, M, Text, print_addr, print_hex, print_ip};
use std::alloc::Global;

/// The line of an event, with its LF.
pub fn write_event(alloc: Global, event: &Event) -> M<Text>
    ensures { IfOk result (λ line. line ≡ event_line event.now) }
{
    let mut line = Text::new(alloc, verb_of(event).text())?;
    add_fields(alloc, &mut line, event)?;
    line.push(b"\n")?;
    Ok(line)
}

fn verb_of(event: &Event) -> EventVerb
    ensures { result ≡ verb_of event.now }
{
    match event {
        Event::Accept { .. } => EventVerb::Accept,
        Event::FromClient { .. } => EventVerb::Client,
        Event::ClientEnd { .. } => EventVerb::ClientEnd,
        Event::ClientReset { .. } => EventVerb::ClientReset,
        Event::Connected { .. } => EventVerb::Connected,
        Event::Refused { .. } => EventVerb::Refused,
        Event::FromServer { .. } => EventVerb::Server,
        Event::ServerEnd { .. } => EventVerb::ServerEnd,
        Event::ServerReset { .. } => EventVerb::ServerReset,
        Event::ClientTook { .. } => EventVerb::ClientTook,
        Event::ServerTook { .. } => EventVerb::ServerTook,
        Event::Tick { .. } => EventVerb::Tick,
        Event::Turn => EventVerb::Turn,
        Event::Run => EventVerb::Run,
        Event::Mark { .. } => EventVerb::Mark,
    }
}

fn add_fields(alloc: Global, line: &mut Text, event: &Event) -> M<()>
    ensures { OnOk result (line.new ≡ spaced line.old (map field_text (fields event.now))) }
{
    match event {
        Event::Accept { conn, vs, from } => add_accepted(alloc, line, *conn, vs, *from),
        Event::Mark { pool, member, up } => add_marked(alloc, line, pool, *member, *up),
        Event::FromClient { conn, bytes } => add_bytes(alloc, line, *conn, bytes),
        Event::FromServer { conn, bytes } => add_bytes(alloc, line, *conn, bytes),
        Event::ClientTook { conn, n } => add_took(alloc, line, *conn, *n),
        Event::ServerTook { conn, n } => add_took(alloc, line, *conn, *n),
        Event::ClientEnd { conn } => add_number(alloc, line, u64::from(*conn)),
        Event::ClientReset { conn } => add_number(alloc, line, u64::from(*conn)),
        Event::Connected { conn } => add_number(alloc, line, u64::from(*conn)),
        Event::Refused { conn } => add_number(alloc, line, u64::from(*conn)),
        Event::ServerEnd { conn } => add_number(alloc, line, u64::from(*conn)),
        Event::ServerReset { conn } => add_number(alloc, line, u64::from(*conn)),
        Event::Tick { moment } => add_number(alloc, line, *moment),
        Event::Turn => Ok(()),
        Event::Run => Ok(()),
    }
}

fn add_accepted(alloc: Global, line: &mut Text, conn: u32, vs: &Text, from: Addr) -> M<()>
    ensures { OnOk result
        (line.new ≡ spaced line.old (map field_text (fields (Event.Accept conn vs.now from)))) }
{
    add_number(alloc, line, u64::from(conn))?;
    add(line, vs.as_bytes())?;
    add(line, print_ip(alloc, from.ip)?.as_bytes())?;
    add_number(alloc, line, u64::from(from.port))
}

fn add_marked(alloc: Global, line: &mut Text, pool: &Text, member: Addr, up: bool) -> M<()>
    ensures { OnOk result
        (line.new ≡ spaced line.old (map field_text (fields (Event.Mark pool.now member up)))) }
{
    add(line, pool.as_bytes())?;
    add(line, print_addr(alloc, member)?.as_bytes())?;
    add(line, health_text(up))
}

fn health_text(up: bool) -> &'static [u8]
    ensures { result.now ≡ health_text up }
{
    if up { b"up" } else { b"down" }
}

fn add_bytes(alloc: Global, line: &mut Text, conn: u32, bytes: &Text) -> M<()>
    ensures { OnOk result
        (line.new ≡ spaced line.old (map field_text (fields (Event.FromClient conn bytes.now)))) }
{
    add_number(alloc, line, u64::from(conn))?;
    add(line, print_hex(alloc, bytes.as_bytes())?.as_bytes())
}

fn add_took(alloc: Global, line: &mut Text, conn: u32, n: usize) -> M<()>
    ensures { OnOk result
        (line.new ≡ spaced line.old (map field_text (fields (Event.ClientTook conn n)))) }
{
    add_number(alloc, line, u64::from(conn))?;
    add_number(alloc, line, n as u64)
}

fn add_number(alloc: Global, line: &mut Text, n: u64) -> M<()>
    ensures { OnOk result (line.new ≡ line.old ++ 32 ∷ decimal n) }
{
    add(line, format!(in alloc; "{n}")?.as_bytes())
}

fn add(line: &mut Text, word: &[u8]) -> M<()>
    ensures { OnOk result (line.new ≡ line.old ++ 32 ∷ word.now) }
{
    line.push(b" ")?;
    line.push(word)
}
