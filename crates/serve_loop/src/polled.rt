// What asking comes to.

ghost use Rattle.std.specs.Prelude.{◌≡◌, IfOk, take};
ghost use Rattle.px_outside.specs.Net.{got};
ghost use Rattle.core_events.specs.Face.{from_event, end_event, reset_event, took_event};
ghost use Rattle.serve_loop.specs.Events.{read_event, write_event};
ghost use Rattle.serve_loop.specs.declared.polled.Polled.TheVariants as is;
ghost use Rattle.serve_loop.specs.Asking.{read_over};
ghost use Rattle.std.specs.Prelude.{if◌then◌else◌};

use crate::LinkOwner;
use core_events::Event;
use px_bytes::{M, Side, Text};
use px_outside::{ReadAnswer, WriteAnswer};
use std::alloc::Global;

/// What asking a listener or a link comes to.
#[derive(Clone, Copy, PartialEq, Eq)]
pub enum Polled {
    /// It gave something, and may give more.
    Again,
    /// It may not be asked now.
    Stays,
    /// It gives no more by now.
    Over,
}

/// What an answer to a read becomes, with the bytes that stand at the start of the room.
pub fn read_to_event(
    alloc: Global,
    row: LinkOwner,
    answer: ReadAnswer,
    room: &[u8],
) -> M<Option<Event>>
    ensures { IfOk result
        (λ event. event ≡ read_event row.conn row.side answer (got answer room.now)) }
{
    match answer {
        ReadAnswer::Got(n) => {
            let bytes = Text::new(alloc, front(room, n))?;
            Ok(Some(from_to_event(row, bytes)))
        }
        ReadAnswer::NotYet => Ok(None),
        ReadAnswer::End => Ok(Some(end_to_event(row))),
        ReadAnswer::Reset => Ok(Some(reset_to_event(row.conn, row.side))),
    }
}

fn front(room: &[u8], n: usize) -> &[u8]
    ensures { result.now ≡ take n room.now }
{
    if n <= room.len() { &room[..n] } else { room }
}

fn from_to_event(row: LinkOwner, bytes: Text) -> Event
    ensures { result ≡ from_event row.side row.conn bytes }
{
    let conn = row.conn;
    match row.side {
        Side::Client => Event::FromClient { conn, bytes },
        Side::Server => Event::FromServer { conn, bytes },
    }
}

fn end_to_event(row: LinkOwner) -> Event
    ensures { result ≡ end_event row.side row.conn }
{
    match row.side {
        Side::Client => Event::ClientEnd { conn: row.conn },
        Side::Server => Event::ServerEnd { conn: row.conn },
    }
}

fn reset_to_event(conn: u32, side: Side) -> Event
    ensures { result ≡ reset_event side conn }
{
    match side {
        Side::Client => Event::ClientReset { conn },
        Side::Server => Event::ServerReset { conn },
    }
}

fn took_to_event(conn: u32, side: Side, n: usize) -> Event
    ensures { result ≡ took_event side conn n }
{
    match side {
        Side::Client => Event::ClientTook { conn, n },
        Side::Server => Event::ServerTook { conn, n },
    }
}

/// What an answer to a write becomes.
pub fn write_to_event(conn: u32, side: Side, answer: WriteAnswer) -> Option<Event>
    ensures { result ≡ write_event conn side answer }
{
    match answer {
        WriteAnswer::Took(n) => Some(took_to_event(conn, side, n)),
        WriteAnswer::NotYet => None,
        WriteAnswer::Reset => Some(reset_to_event(conn, side)),
    }
}

/// Whether a link gave bytes, and may give more.
pub fn asked_by(answer: ReadAnswer) -> Polled
    ensures { result ≡ (if read_over answer then is.Over else is.Again) }
{
    match answer {
        ReadAnswer::Got(_) => Polled::Again,
        ReadAnswer::NotYet => Polled::Over,
        ReadAnswer::End => Polled::Over,
        ReadAnswer::Reset => Polled::Over,
    }
}
