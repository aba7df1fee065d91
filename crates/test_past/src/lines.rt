// What a rule logged.

ghost use Rattle.std.specs.Prelude.{◌≡◌, Some, drop, option_map, slice_get};
ghost use Rattle.std.specs.List.{list_any};
ghost use Rattle.test_past.specs.Lines.{conn_named, fault_at, has_fault, is_fault, left_by, line_in};
ghost use Rattle.test_past.specs.Lines.{lines_read};
ghost use Rattle.test_past.specs.Lines.{logged, next_line, reads_line, same_owner, takes_line};

use crate::entry::{ClientConn, RunEntry};
use crate::got::question_at;
use crate::standing::conn_of;
use px_bytes::Text;
use test_text::{Expectation, PlacedStep, Wished};

// The line that a connection logs by an entry.
fn line_in(conn: u32, entry: &RunEntry) -> Option<&Text>
    ensures { option_map (λ t. t.now) result ≡ line_in conn entry.now }
{
    match entry {
        RunEntry::Logged { conn: of, text } => { if *of == conn { Some(text) } else { None } }
        _ => None,
    }
}

// The line of this number of a connection, from 0.
fn line_at(conn: u32, number: usize, entries: &[RunEntry]) -> Option<&Text>
    ensures { option_map (λ t. t.now) result ≡ slice_get (logged conn entries.now) number }
{
    let mut left = number;
    for entry in entries {
        if let Some(text) = line_in(conn, entry) {
            if left == 0 {
                return Some(text);
            }
            left -= 1;
        }
    }
    None
}

fn same_owner(of: Option<usize>, other: Option<usize>) -> bool
    ensures { result ≡ same_owner of other }
{
    match (of, other) {
        (None, None) => true,
        (Some(client), Some(whose)) => client == whose,
        _ => false,
    }
}

// Whether a question takes a line.
fn takes_line(question: &Expectation, of: Option<usize>) -> bool
    ensures { result ≡ takes_line question.now of }
{
    match question {
        Expectation::Log { of: whose, what } => {
            !matches!(what, Wished::Nothing) && same_owner(*whose, of)
        }
        _ => false,
    }
}

// Whether an entry asks for a line.
fn reads_line(steps: &[PlacedStep], of: Option<usize>, entry: &RunEntry) -> bool
    ensures { result ≡ reads_line steps.now of entry.now }
{
    let RunEntry::Asks { step } = entry else {
        return false;
    };
    match question_at(steps, *step) {
        Some(question) => takes_line(question, of),
        None => false,
    }
}

// How many lines questions asked for.
fn lines_read(steps: &[PlacedStep], of: Option<usize>, entries: &[RunEntry]) -> usize
    ensures { result ≡ lines_read steps.now of entries.now }
{
    entries
        .iter()
        .filter(|entry| reads_line(steps, of, entry))
        .count()
}

// The connection of a client; 0 for RULE_INIT.
pub(crate) fn conn_named(came: &[ClientConn], of: Option<usize>) -> Option<u32>
    ensures { result ≡ conn_named came.now of }
{
    match of {
        None => Some(0),
        Some(client) => conn_of(client, came),
    }
}

/// The next line that was logged for a client, or by RULE_INIT, behind those that questions asked
/// for.
pub fn next_line<'a>(
    steps: &[PlacedStep],
    came: &[ClientConn],
    of: Option<usize>,
    entries: &'a [RunEntry],
) -> Option<&'a Text>
    ensures { option_map (λ t. t.now) result ≡ next_line steps.now came.now of entries.entry.now }
{
    match conn_named(came, of) {
        Some(conn) => line_at(conn, lines_read(steps, of, entries), entries),
        None => None,
    }
}

fn is_fault(line: &[u8]) -> bool
    ensures { result ≡ is_fault line.now }
{
    line.starts_with(b"TCL error: ")
}

// Whether a line behind so many others tells a fault that nothing caught.
fn fault_at(line: Option<&Text>, left: usize) -> bool
    ensures { result ≡ fault_at (option_map (λ t. t.now) line.entry) left }
{
    match line {
        Some(line) => left == 0 && is_fault(line.as_bytes()),
        None => false,
    }
}

// How many lines are left to pass.
fn left_by(line: Option<&Text>, left: usize) -> usize
    ensures { result ≡ left_by (option_map (λ t. t.now) line.entry) left }
{
    match line {
        Some(_) => left.saturating_sub(1),
        None => left,
    }
}

// Whether a line of a connection behind so many others tells a fault that nothing caught.
#[tactic(auto, using(crate::proofs::Faults::next))]
fn faults_behind(conn: u32, read: usize, entries: &[RunEntry]) -> bool
    ensures { result ≡ list_any is_fault (drop read (logged conn entries.now)) }
{
    let mut left = read;
    for entry in entries {
        if fault_at(line_in(conn, entry), left) {
            return true;
        }
        left = left_by(line_in(conn, entry), left);
    }
    false
}

/// Whether a line that no question asked for tells a fault that nothing caught.
pub(crate) fn has_fault(
    steps: &[PlacedStep],
    came: &[ClientConn],
    of: Option<usize>,
    entries: &[RunEntry],
) -> bool
    ensures { result ≡ has_fault steps.now came.now of entries.now }
{
    match conn_named(came, of) {
        Some(conn) => faults_behind(conn, lines_read(steps, of, entries), entries),
        None => false,
    }
}
