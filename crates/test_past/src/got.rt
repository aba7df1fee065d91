// What a side took and no question read yet.

ghost use Rattle.std.specs.Prelude.{◌≡◌, [], IfOk, OnOk, Some, option_map};
ghost use Rattle.test_past.specs.Got.{got_after, got_by, got_from, got_of, has_client, is_read, is_wished, question_at};
ghost use Rattle.test_past.specs.Got.{question_in, reads, same_side, taken};

use crate::entry::{ClientConn, RunEntry};
use crate::standing::conn_of;
use px_bytes::{M, Side, Text, glob};
use std::alloc::Global;
use test_text::{Expectation, PlacedStep, TestStep, Wished};

/// Whether both are the same side.
pub fn same_side(side: Side, other: Side) -> bool
    ensures { result ≡ same_side side other }
{
    match side {
        Side::Client => matches!(other, Side::Client),
        Side::Server => matches!(other, Side::Server),
    }
}

/// Whether these bytes are what is wished.
pub fn is_wished(what: &Wished, bytes: &[u8]) -> bool
    ensures { result ≡ is_wished what.now bytes.now }
{
    match what {
        Wished::Exactly(text) => text.as_bytes() == bytes,
        Wished::Like(pattern) => glob(pattern.as_bytes(), bytes),
        Wished::Nothing => bytes.is_empty(),
    }
}

fn question_in(placed: &PlacedStep) -> Option<&Expectation>
    ensures { option_map (λ e. e.now) result ≡ question_in placed.now }
{
    match &placed.step {
        TestStep::Expect(question) => Some(question),
        _ => None,
    }
}

/// The question of a step.
pub fn question_at(steps: &[PlacedStep], step: usize) -> Option<&Expectation>
    ensures { option_map (λ e. e.now) result ≡ question_at steps.now step }
{
    match steps.get(step) {
        Some(placed) => question_in(placed),
        None => None,
    }
}

fn has_client(clients: &[usize], client: usize) -> bool
    ensures { result ≡ has_client clients.now client }
{
    clients.iter().any(|other| *other == client)
}

// Whether a question reads what a side of a client got.
fn reads(question: &Expectation, side: Side, client: usize, got: &[u8]) -> bool
    ensures { result ≡ reads question.now side client got.now }
{
    match question {
        Expectation::Gets {
            side: of,
            client: whose,
            ..
        } => same_side(*of, side) && *whose == client,
        Expectation::SomeGet { clients, what, .. } => {
            same_side(side, Side::Client)
                && has_client(clients.as_slice(), client)
                && is_wished(what, got)
        }
        _ => false,
    }
}

// Whether the question of a step does.
fn is_read(steps: &[PlacedStep], step: usize, side: Side, client: usize, got: &[u8]) -> bool
    ensures { result ≡ is_read steps.now step side client got.now }
{
    match question_at(steps, step) {
        Some(question) => reads(question, side, client, got),
        None => false,
    }
}

// What a side of a connection takes by an entry.
fn taken<'a>(entry: &'a RunEntry, side: Side, conn: u32) -> Option<&'a Text>
    ensures { option_map (λ t. t.now) result ≡ taken entry.now side conn }
{
    match entry {
        RunEntry::Took {
            conn: of,
            side: whose,
            bytes,
        } => {
            if *of == conn && same_side(*whose, side) {
                Some(bytes)
            } else {
                None
            }
        }
        _ => None,
    }
}

// Adds what a side takes by an entry; nothing is left of it where a question reads it.
fn pass(
    alloc: Global,
    got: &mut Text,
    steps: &[PlacedStep],
    side: Side,
    one: ClientConn,
    entry: &RunEntry,
) -> M<()>
    ensures { OnOk result (got.new ≡ got_after steps.now side one entry.now got.old) }
{
    if let RunEntry::Asks { step } = entry {
        if is_read(steps, *step, side, one.client, got.as_bytes()) {
            *got = Text::empty(alloc);
        }
        return Ok(());
    }
    match taken(entry, side, one.conn) {
        Some(bytes) => got.push(bytes.as_bytes()),
        None => Ok(()),
    }
}

// What a side of a connection took since a question read it last.
fn got_of(
    alloc: Global,
    steps: &[PlacedStep],
    side: Side,
    one: ClientConn,
    entries: &[RunEntry],
) -> M<Text>
    ensures { IfOk result (λ got. got ≡ got_from steps.now side one [] entries.now) }
{
    let mut got = Text::empty(alloc);
    for entry in entries {
        pass(alloc, &mut got, steps, side, one, entry)?;
    }
    Ok(got)
}

/// What a client, or its server, took since a question read it last.
pub fn got_by(
    alloc: Global,
    steps: &[PlacedStep],
    came: &[ClientConn],
    side: Side,
    client: usize,
    entries: &[RunEntry],
) -> M<Text>
    ensures { IfOk result (λ got. got ≡ got_by steps.now came.now side client entries.now) }
{
    match conn_of(client, came) {
        Some(conn) => got_of(alloc, steps, side, ClientConn { client, conn }, entries),
        None => Ok(Text::empty(alloc)),
    }
}
