// In which orders what a test does together may happen.

ghost use Rattle.std.specs.Prelude.{◌≡◌, ◌<◌, ◌++◌, ◌∷◌, [], IfNone, IfOk, IfSome, OnOk, length, map};
ghost use Rattle.test_orders.specs.Orders.{most_orders, numbers_from};
ghost use Rattle.test_plan.specs.Ways.{grown, grown_by, step_orders, unless_many, ways};
ghost use Rattle.test_plan.specs.Ways.{with_orders};

use crate::choices::groups;
use px_bytes::{M, Seq};
use std::alloc::Global;
use test_orders::{MOST_ORDERS, StepOrder, orders};
use test_text::{PlacedStep, TestStep};

/// An order for each step of a test, at its number; of a step in which nothing is done together it is
/// empty.
pub type StepOrders = Seq<Seq<usize>>;

fn copied(alloc: Global, numbers: &[usize]) -> M<Seq<usize>>
    ensures { IfOk result (λ copy. copy ≡ numbers.now) }
{
    let mut copy = Seq::new(alloc);
    for number in numbers {
        copy.push(*number)?;
    }
    Ok(copy)
}

// An order more, behind those of the steps before.
fn add_order(alloc: Global, way: &[Seq<usize>], order: &[usize]) -> M<StepOrders>
    ensures { IfOk result (λ longer. longer ≡ way.now ++ order.now ∷ []) }
{
    let mut longer = Seq::new(alloc);
    for before in way {
        longer.push(copied(alloc, before.as_slice())?)?;
    }
    longer.push(copied(alloc, order)?)?;
    Ok(longer)
}

// Adds a way with each of these orders behind it.
fn add_longer(
    alloc: Global,
    longer: &mut Seq<StepOrders>,
    way: &[Seq<usize>],
    orders: &[StepOrder],
) -> M<()>
    ensures { OnOk result (longer.new
        ≡ longer.old ++ map (λ order. way.now ++ order ∷ []) (map (λ o. o.done) orders.now)) }
{
    for order in orders {
        longer.push(add_order(alloc, way, order.done.as_slice())?)?;
    }
    Ok(())
}

// Each of these ways with each of these orders behind it.
fn extend(alloc: Global, ways: &[StepOrders], orders: &[StepOrder]) -> M<Seq<StepOrders>>
    ensures { IfOk result (λ longer. longer ≡ with_orders (map (λ o. o.done) orders.now) ways.now) }
{
    let mut longer = Seq::new(alloc);
    for way in ways {
        add_longer(alloc, &mut longer, way.as_slice(), orders)?;
    }
    Ok(longer)
}

// The order in which so many things are written.
fn written(alloc: Global, count: usize) -> M<StepOrder>
    ensures { IfOk result (λ order. order ≡ record { done = numbers_from 0 count; left = [] }) }
{
    let mut done = Seq::new(alloc);
    for number in 0..count {
        done.push(number)?;
    }
    Ok(StepOrder {
        done,
        left: Seq::new(alloc),
    })
}

fn only_written(alloc: Global, count: usize) -> M<Option<Seq<StepOrder>>>
    ensures { IfOk result (λ found. found
        ≡ Some (record { done = numbers_from 0 count; left = [] } ∷ [])) }
{
    let order = written(alloc, count)?;
    let mut orders = Seq::new(alloc);
    orders.push(order)?;
    Ok(Some(orders))
}

// The orders of what a step does together; None where they are more than 10,000.
fn orders_of(alloc: Global, all: bool, clients: usize, step: &TestStep) -> M<Option<Seq<StepOrder>>>
    ensures some { IfOk result (λ found. IfSome found
        (λ found. map (λ order. order.done) found ≡ step_orders all clients step.now)) }
    ensures none { IfOk result (λ found. IfNone found
        (most_orders < length (step_orders all clients step.now))) }
{
    let TestStep::Together(deeds) = step else {
        return only_written(alloc, 0);
    };
    if !all {
        return only_written(alloc, deeds.len());
    }
    let groups = groups(alloc, clients, deeds.as_slice())?;
    orders(alloc, groups.as_slice())
}

// Each of these ways with each of these orders behind it; None where either are more than 10,000.
fn grow_by(alloc: Global, ways: &[StepOrders], orders: &[StepOrder]) -> M<Option<Seq<StepOrders>>>
    ensures { IfOk result
        (λ longer. longer ≡ grown_by (map (λ o. o.done) orders.now) ways.now) }
{
    if orders.len() > MOST_ORDERS {
        return Ok(None);
    }
    let longer = extend(alloc, ways, orders)?;
    Ok(unless_many(longer))
}

fn unless_many(ways: Seq<StepOrders>) -> Option<Seq<StepOrders>>
    ensures { result ≡ unless_many ways }
{
    if ways.len() > MOST_ORDERS {
        drop(ways);
        return None;
    }
    Some(ways)
}

// The ways of so many steps and one more.
fn grow(
    alloc: Global,
    all: bool,
    clients: usize,
    ways: &[StepOrders],
    step: &TestStep,
) -> M<Option<Seq<StepOrders>>>
    ensures { IfOk result (λ longer. longer ≡ grown all clients ways.now step.now) }
{
    match orders_of(alloc, all, clients, step)? {
        Some(orders) => grow_by(alloc, ways, orders.as_slice()),
        None => Ok(None),
    }
}

fn no_steps(alloc: Global) -> M<Seq<StepOrders>>
    ensures { IfOk result (λ ways. ways ≡ [] ∷ []) }
{
    let mut ways = Seq::new(alloc);
    ways.push(Seq::new(alloc))?;
    Ok(ways)
}

/// The ways in which what a test does together may happen: all, or the one that is written. None where
/// they are more than 10,000.
pub fn ways(
    alloc: Global,
    all: bool,
    clients: usize,
    steps: &[PlacedStep],
) -> M<Option<Seq<StepOrders>>>
    ensures { IfOk result (λ found. found ≡ ways all clients steps.now) }
{
    let mut found = no_steps(alloc)?;
    for step in steps {
        match grow(alloc, all, clients, found.as_slice(), &step.step)? {
            Some(longer) => found = longer,
            None => return Ok(None),
        }
    }
    Ok(Some(found))
}
