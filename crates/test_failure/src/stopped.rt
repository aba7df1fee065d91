// Why a run couldn't go on.

use crate::shown::add_line;
use core_events::Event;
use px_bytes::{M, Texts};
use std::alloc::Global;
use test_past::{RunEnd, RunEntry, is_over};

// Why an event of a connection can't happen.
fn of_conn(conn: u32, entries: &[RunEntry]) -> &'static str {
    if is_over(conn, entries) {
        return "the connection is over";
    }
    "the side isn't there, has ended, or may not send so much"
}

fn of_event(event: &Event, entries: &[RunEntry]) -> &'static str {
    match event {
        Event::Accept { .. } => "as many connections are live as may be",
        Event::Tick { .. } => "the moment is too late",
        Event::FromClient { conn, .. }
        | Event::FromServer { conn, .. }
        | Event::ClientEnd { conn }
        | Event::ServerEnd { conn }
        | Event::ClientReset { conn }
        | Event::ServerReset { conn } => of_conn(*conn, entries),
        _ => "it isn't due",
    }
}

// Why the last event can't happen; without any, a client couldn't come.
fn reason(entries: &[RunEntry]) -> &'static str {
    match entries.last() {
        Some(RunEntry::Given(event)) => of_event(event, entries),
        _ => "as many connections are live as may be",
    }
}

/// Adds why a run couldn't go on.
pub(crate) fn add_stopped(
    alloc: Global,
    lines: &mut Texts,
    end: RunEnd,
    entries: &[RunEntry],
) -> M<()> {
    if matches!(end, RunEnd::Restless { .. }) {
        return add_line(alloc, lines, &[b"it did not come to rest"]);
    }
    let why = reason(entries);
    add_line(alloc, lines, &[b"this can't happen here: ", why.as_bytes()])
}
