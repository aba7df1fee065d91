// An event once more.

ghost use Rattle.std.specs.Prelude.{◌≡◌, IfOk};

use core_events::Event;
use px_bytes::{Addr, M, Text};

fn accept(conn: u32, vs: &Text, from: Addr) -> M<Event>
    ensures { IfOk result (λ event. event ≡ Event.Accept conn vs.now from) }
{
    let vs = vs.copy()?;
    Ok(Event::Accept { conn, vs, from })
}

fn from_client(conn: u32, bytes: &Text) -> M<Event>
    ensures { IfOk result (λ event. event ≡ Event.FromClient conn bytes.now) }
{
    let bytes = bytes.copy()?;
    Ok(Event::FromClient { conn, bytes })
}

fn from_server(conn: u32, bytes: &Text) -> M<Event>
    ensures { IfOk result (λ event. event ≡ Event.FromServer conn bytes.now) }
{
    let bytes = bytes.copy()?;
    Ok(Event::FromServer { conn, bytes })
}

fn mark(pool: &Text, member: Addr, up: bool) -> M<Event>
    ensures { IfOk result (λ event. event ≡ Event.Mark pool.now member up) }
{
    let pool = pool.copy()?;
    Ok(Event::Mark { pool, member, up })
}

/// The same event.
pub(crate) fn copy_event(event: &Event) -> M<Event>
    ensures { IfOk result (λ copy. copy ≡ event.now) }
{
    match event {
        Event::Accept { conn, vs, from } => accept(*conn, vs, *from),
        Event::FromClient { conn, bytes } => from_client(*conn, bytes),
        Event::ClientEnd { conn } => Ok(Event::ClientEnd { conn: *conn }),
        Event::ClientReset { conn } => Ok(Event::ClientReset { conn: *conn }),
        Event::Connected { conn } => Ok(Event::Connected { conn: *conn }),
        Event::Refused { conn } => Ok(Event::Refused { conn: *conn }),
        Event::FromServer { conn, bytes } => from_server(*conn, bytes),
        Event::ServerEnd { conn } => Ok(Event::ServerEnd { conn: *conn }),
        Event::ServerReset { conn } => Ok(Event::ServerReset { conn: *conn }),
        Event::ClientTook { conn, n } => Ok(Event::ClientTook { conn: *conn, n: *n }),
        Event::ServerTook { conn, n } => Ok(Event::ServerTook { conn: *conn, n: *n }),
        Event::Tick { moment } => Ok(Event::Tick { moment: *moment }),
        Event::Turn => Ok(Event::Turn),
        Event::Run => Ok(Event::Run),
        Event::Mark { pool, member, up } => mark(pool, *member, *up),
    }
}
