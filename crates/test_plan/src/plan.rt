// The moves of a run.

ghost use Rattle.std.specs.Prelude.{◌≡◌, ◌+◌, ◌++◌, IfOk, OnOk, slice_get};
ghost use Rattle.test_plan.specs.Plan.{moves_from, order_of, plan, step_moves, step_sends};

use crate::choices::{step_sends, sum};
use crate::deeds::{add_deed, add_together};
use px_bytes::{M, Seq, Text};
use std::alloc::Global;
use test_orders::Cut;
use test_text::{PlacedStep, TestStep};

/// A move of a run. A deed goes by the number of its step and its own among those that are done
/// together, from 0.
#[derive(Drop)]
pub enum TestMove {
    Does { step: usize, at: usize },
    /// A piece of the text that the deed sends.
    Sends { step: usize, at: usize, bytes: Text },
    /// What can go on does, until all is settled.
    Rests,
    /// The question of this step is asked.
    Asks { step: usize },
}

// The order at a place; none where none is told.
fn order_at(orders: &[Seq<usize>], number: usize) -> &[usize]
    ensures { result.now ≡ order_of (slice_get orders.now number) }
{
    match orders.get(number) {
        Some(order) => order.as_slice(),
        None => &[],
    }
}

// Adds the moves of a step, by an order of what is done together.
fn add_moves(
    alloc: Global,
    moves: &mut Seq<TestMove>,
    cut: Cut,
    send: usize,
    number: usize,
    order: &[usize],
    step: &TestStep,
) -> M<()>
    ensures { OnOk result (moves.new ≡ moves.old ++ step_moves cut send number order.now step.now) }
{
    match step {
        TestStep::One(deed) => {
            add_deed(alloc, moves, cut, send, number, 0, deed)?;
            moves.push(TestMove::Rests)
        }
        TestStep::Together(deeds) => {
            add_together(alloc, moves, cut, send, number, deeds.as_slice(), order)
        }
        TestStep::Expect(_) => moves.push(TestMove::Asks { step: number }),
    }
}

// Adds the moves of a step, and tells the number of the text behind those that it sends.
fn add_step(
    alloc: Global,
    moves: &mut Seq<TestMove>,
    cut: Cut,
    send: usize,
    number: usize,
    orders: &[Seq<usize>],
    step: &TestStep,
) -> M<usize>
    ensures moves { OnOk result (moves.new ≡ moves.old
        ++ step_moves cut send number (order_of (slice_get orders.now number)) step.now) }
    ensures sends { IfOk result (λ next. next ≡ send + step_sends step.now) }
{
    let order = order_at(orders, number);
    add_moves(alloc, moves, cut, send, number, order, step)?;
    sum(send, step_sends(alloc, step)?)
}

fn fill(
    alloc: Global,
    moves: &mut Seq<TestMove>,
    cut: Cut,
    orders: &[Seq<usize>],
    steps: &[PlacedStep],
) -> M<()>
    ensures { OnOk result (moves.new ≡ moves.old ++ plan cut orders.now steps.now) }
{
    let mut send: usize = 0;
    for (number, step) in steps.iter().enumerate() {
        send = add_step(alloc, moves, cut, send, number, orders, &step.step)?;
    }
    Ok(())
}

/// The moves of these steps, by a cut of what they send, and an order for each step in which
/// several things are done together, at its number.
pub fn moves(
    alloc: Global,
    cut: Cut,
    orders: &[Seq<usize>],
    steps: &[PlacedStep],
) -> M<Seq<TestMove>>
    ensures { IfOk result (λ moves. moves ≡ plan cut orders.now steps.now) }
{
    let mut found = Seq::new(alloc);
    match fill(alloc, &mut found, cut, orders, steps) {
        Ok(()) => Ok(found),
        Err(why) => {
            drop(found);
            Err(why)
        }
    }
}
