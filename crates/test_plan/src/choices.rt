// What may be cut, and what may change places.

ghost use Rattle.std.specs.Prelude.{◌≡◌, ◌+◌, ◌++◌, IfOk, OnOk, flat_map, length};
ghost use Rattle.test_plan.specs.Plan.{client_of, group_by, groups_from, length_of, lengths_of};
ghost use Rattle.test_plan.specs.Plan.{sent_by, step_lengths, step_sends};

use crate::deeds::sent_by;
use px_bytes::{M, Memory, Seq};
use std::alloc::Global;
use test_text::{Deed, PlacedDeed, PlacedStep, TestStep};

// Adds the length of the text that is sent by a deed.
fn add_length(lengths: &mut Seq<usize>, deed: &Deed) -> M<()>
    ensures { OnOk result (lengths.new ≡ lengths.old ++ length_of (sent_by deed.now)) }
{
    match sent_by(deed) {
        None => Ok(()),
        Some(bytes) => lengths.push(bytes.len()),
    }
}

fn add_lengths(lengths: &mut Seq<usize>, deeds: &[PlacedDeed]) -> M<()>
    ensures { OnOk result (lengths.new ≡ lengths.old
        ++ flat_map (λ d. length_of (sent_by d.deed)) deeds.now) }
{
    for deed in deeds {
        add_length(lengths, &deed.deed)?;
    }
    Ok(())
}

fn add_step(lengths: &mut Seq<usize>, step: &TestStep) -> M<()>
    ensures { OnOk result (lengths.new ≡ lengths.old ++ step_lengths step.now) }
{
    match step {
        TestStep::One(deed) => add_length(lengths, deed),
        TestStep::Together(deeds) => add_lengths(lengths, deeds.as_slice()),
        TestStep::Expect(_) => Ok(()),
    }
}

/// The lengths of all texts that these steps send, as they are written: what `test_orders::cuts`
/// asks for.
pub fn lengths(alloc: Global, steps: &[PlacedStep]) -> M<Seq<usize>>
    ensures { IfOk result (λ found. found ≡ lengths_of steps.now) }
{
    let mut found = Seq::new(alloc);
    for step in steps {
        add_step(&mut found, &step.step)?;
    }
    Ok(found)
}

/// How many texts a step sends.
pub(crate) fn step_sends(alloc: Global, step: &TestStep) -> M<usize>
    ensures { IfOk result (λ count. count ≡ step_sends step.now) }
{
    let mut found = Seq::new(alloc);
    add_step(&mut found, step)?;
    Ok(found.len())
}

/// The sum, unless it is more than any memory could have items.
pub(crate) fn sum(first: usize, second: usize) -> M<usize>
    ensures { IfOk result (λ sum. sum ≡ first + second) }
{
    first.checked_add(second).ok_or(Memory)
}

fn client_of(deed: &Deed) -> Option<usize>
    ensures { result ≡ client_of deed.now }
{
    match deed {
        Deed::Comes { client, .. } => Some(*client),
        Deed::Does { client, .. } => Some(*client),
        _ => None,
    }
}

fn group_by(clients: usize, at: usize, client: Option<usize>) -> M<usize>
    ensures { IfOk result (λ group. group ≡ group_by clients at client) }
{
    match client {
        Some(client) => Ok(client),
        None => sum(clients, at),
    }
}

/// The groups of what is done together in a test of so many clients: what `test_orders::orders`
/// asks for.
pub fn groups(alloc: Global, clients: usize, deeds: &[PlacedDeed]) -> M<Seq<usize>>
    ensures { IfOk result (λ found. found ≡ groups_from clients 0 deeds.now) }
{
    let mut found = Seq::new(alloc);
    for (at, deed) in deeds.iter().enumerate() {
        found.push(group_by(clients, at, client_of(&deed.deed))?)?;
    }
    Ok(found)
}
