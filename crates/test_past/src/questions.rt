// Whether what a question asks holds of what happened.

ghost use Rattle.std.specs.Prelude.{◌≡◌, IfOk, option_map};
ghost use Rattle.std.specs.List.{count_by};
ghost use Rattle.test_past.specs.Got.{got_by, is_wished};
ghost use Rattle.test_past.specs.Questions.{finishes, holds, is_open, is_server, line_holds};
ghost use Rattle.test_past.specs.Questions.{same_finish, same_server};
ghost use Rattle.px_bytes.specs.declared.addr.Side.TheVariants.{Client};

use crate::entry::{ClientConn, RunEntry};
use crate::got::{got_by, is_wished};
use crate::lines::next_line;
use crate::rows::row_holds;
use crate::standing::{asked_by, conn_of, finish_of, is_over};
use core_events::Cause;
use px_bytes::{Addr, M, Side, Text};
use std::alloc::Global;
use test_text::{Expectation, PlacedStep, Wished};

fn same_server(addr: Option<Addr>, asked: Option<Addr>) -> bool
    ensures { result ≡ same_server addr asked }
{
    match (addr, asked) {
        (None, None) => true,
        (Some(addr), Some(asked)) => addr == asked,
        _ => false,
    }
}

// Whether this is the server that was asked last for a client.
fn is_server(came: &[ClientConn], client: usize, addr: Option<Addr>, entries: &[RunEntry]) -> bool
    ensures { result ≡ is_server came.now client addr entries.now }
{
    match conn_of(client, came) {
        Some(conn) => same_server(addr, asked_by(conn, entries)),
        None => false,
    }
}

fn same_finish(cause: Cause, finish: Option<Cause>) -> bool
    ensures { result ≡ same_finish cause finish }
{
    match finish {
        Some(other) => cause == other,
        None => false,
    }
}

// Whether a client's connection is over for this cause.
fn finishes(came: &[ClientConn], client: usize, cause: Cause, entries: &[RunEntry]) -> bool
    ensures { result ≡ finishes came.now client cause entries.now }
{
    match conn_of(client, came) {
        Some(conn) => is_over(conn, entries) && same_finish(cause, finish_of(conn, entries)),
        None => false,
    }
}

fn is_open(came: &[ClientConn], client: usize, entries: &[RunEntry]) -> bool
    ensures { result ≡ is_open came.now client entries.now }
{
    match conn_of(client, came) {
        Some(conn) => !is_over(conn, entries),
        None => false,
    }
}

// Whether a line is what is wished; nothing, where there is none.
fn line_holds(what: &Wished, line: Option<&Text>) -> bool
    ensures { result ≡ line_holds what.now (option_map (λ t. t.now) line.entry) }
{
    match (what, line) {
        (Wished::Nothing, None) => true,
        (Wished::Nothing, Some(_)) => false,
        (_, None) => false,
        (_, Some(text)) => is_wished(what, text.as_bytes()),
    }
}

fn gets(
    alloc: Global,
    steps: &[PlacedStep],
    came: &[ClientConn],
    side: Side,
    client: usize,
    what: &Wished,
    entries: &[RunEntry],
) -> M<bool>
    ensures { IfOk result (λ is. is
        ≡ is_wished what.now (got_by steps.now came.now side client entries.now)) }
{
    let got = got_by(alloc, steps, came, side, client, entries)?;
    Ok(is_wished(what, got.as_bytes()))
}

// How many of these clients got what is wished.
fn count_getting(
    alloc: Global,
    steps: &[PlacedStep],
    came: &[ClientConn],
    clients: &[usize],
    what: &Wished,
    entries: &[RunEntry],
) -> M<usize>
    ensures { IfOk result (λ count. count ≡ count_by (λ client.
        is_wished what.now (got_by steps.now came.now Client client entries.now)) clients.now) }
{
    let mut count = 0;
    for client in clients {
        if gets(alloc, steps, came, Side::Client, *client, what, entries)? {
            count += 1;
        }
    }
    Ok(count)
}

/// Whether what a question asks holds of what happened before it; of the session table no more rows
/// than a limit may be live.
pub(crate) fn holds(
    alloc: Global,
    rows: u32,
    steps: &[PlacedStep],
    came: &[ClientConn],
    question: &Expectation,
    entries: &[RunEntry],
) -> M<bool>
    ensures { IfOk result
        (λ is. is ≡ holds rows steps.now came.now question.now entries.now) }
{
    match question {
        Expectation::Gets { side, client, what } => {
            gets(alloc, steps, came, *side, *client, what, entries)
        }
        Expectation::SomeGet {
            count,
            clients,
            what,
        } => {
            let found = count_getting(alloc, steps, came, clients.as_slice(), what, entries)?;
            Ok(found as u64 == *count)
        }
        Expectation::Server { client, addr } => Ok(is_server(came, *client, *addr, entries)),
        Expectation::Over { client, cause } => Ok(finishes(came, *client, *cause, entries)),
        Expectation::Open { client } => Ok(is_open(came, *client, entries)),
        Expectation::Log { of, what } => {
            Ok(line_holds(what, next_line(steps, came, *of, entries)))
        }
        Expectation::Row(row) => row_holds(alloc, rows, row, entries),
    }
}
