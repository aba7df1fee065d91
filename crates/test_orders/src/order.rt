// In which orders things may happen whose own parts stay in order.

ghost use Rattle.std.specs.Prelude.{◌≡◌, ◌∷◌, ◌++◌, ◌<◌, [], IfNone, IfOk, IfSome, OnOk, length};
ghost use Rattle.std.specs.Prelude.{map};
ghost use Rattle.test_orders.specs.Orders.{group_of, grown, most_orders, numbers_from, orders};
ghost use Rattle.test_orders.specs.Orders.{stands, steps_of};

use px_bytes::{M, Seq};
use std::alloc::Global;

/// The most orders that are told.
pub const MOST_ORDERS: usize = 10_000;

/// An order, or its beginning: numbers in order, and those that are left, in their own order.
#[derive(Drop)]
pub struct StepOrder {
    pub done: Seq<usize>,
    pub left: Seq<usize>,
}

fn group_of(groups: &[usize], number: usize) -> usize
    ensures { result ≡ group_of groups.now number }
{
    groups.get(number).copied().unwrap_or(0)
}

// Whether one of the number's group stands among these.
fn stands(groups: &[usize], number: usize, before: &[usize]) -> bool
    ensures { result ≡ stands groups.now number before.now }
{
    let group = group_of(groups, number);
    before.iter().any(|other| group_of(groups, *other) == group)
}

fn copied(alloc: Global, front: &[usize], back: &[usize]) -> M<Seq<usize>>
    ensures { IfOk result (λ both. both ≡ front.now ++ back.now) }
{
    let mut both = Seq::new(alloc);
    for number in front {
        both.push(*number)?;
    }
    for number in back {
        both.push(*number)?;
    }
    Ok(both)
}

// The order in which the number at a place of those that are left comes next.
fn next_of(
    alloc: Global,
    order: &StepOrder,
    number: usize,
    front: &[usize],
    back: &[usize],
) -> M<StepOrder>
    ensures { IfOk result (λ next. next
        ≡ record { done = order.now.done ++ number ∷ []; left = front.now ++ back.now }) }
{
    let done = copied(alloc, order.done.as_slice(), &[number])?;
    let left = copied(alloc, front, back)?;
    Ok(StepOrder { done, left })
}

// Adds the beginnings of orders with one number more than this one.
#[tactic(auto, using(crate::proofs::Loops::nexts_more))]
fn add_nexts(alloc: Global, groups: &[usize], order: &StepOrder, next: &mut Seq<StepOrder>) -> M<()>
    ensures { OnOk result (next.new ≡ next.old ++ steps_of groups.now order.now) }
{
    let left = order.left.as_slice();
    for (at, number) in left.iter().enumerate() {
        let front = &left[..at];
        if !stands(groups, *number, front) {
            next.push(next_of(alloc, order, *number, front, &left[at + 1..])?)?;
        }
    }
    Ok(())
}

// The beginnings of orders with one number more, unless they are too many.
fn grow(alloc: Global, groups: &[usize], orders: &[StepOrder]) -> M<Option<Seq<StepOrder>>>
    ensures some { IfOk result (λ next. IfSome next (λ next. next ≡ grown groups.now orders.now)) }
    ensures none { IfOk result (λ next. IfNone next
        (most_orders < length (grown groups.now orders.now))) }
{
    let mut next = Seq::new(alloc);
    for order in orders {
        add_nexts(alloc, groups, order, &mut next)?;
        if next.len() > MOST_ORDERS {
            return Ok(None);
        }
    }
    Ok(Some(next))
}

// The beginning of an order, with nothing in it.
fn beginning(alloc: Global, count: usize) -> M<StepOrder>
    ensures { IfOk result (λ order. order ≡ record { done = []; left = numbers_from 0 count }) }
{
    let mut left = Seq::new(alloc);
    for number in 0..count {
        left.push(number)?;
    }
    Ok(StepOrder {
        done: Seq::new(alloc),
        left,
    })
}

fn first(alloc: Global, count: usize) -> M<Seq<StepOrder>>
    ensures { IfOk result (λ orders. orders
        ≡ record { done = []; left = numbers_from 0 count } ∷ []) }
{
    let mut orders = Seq::new(alloc);
    let order = beginning(alloc, count)?;
    orders.push(order)?;
    Ok(orders)
}

/// All orders of so many numbers as there are groups, those of each group in their own order; none
/// where they are more than 10,000. Nothing is left in them.
pub fn orders(alloc: Global, groups: &[usize]) -> M<Option<Seq<StepOrder>>>
    ensures some { IfOk result (λ found. IfSome found
        (λ found. map (λ order. order.done) found ≡ orders groups.now)) }
    ensures none { IfOk result (λ found. IfNone found (most_orders < length (orders groups.now))) }
{
    let mut found = first(alloc, groups.len())?;
    for _ in 0..groups.len() {
        match grow(alloc, groups, found.as_slice())? {
            Some(next) => found = next,
            None => return Ok(None),
        }
    }
    Ok(Some(found))
}
