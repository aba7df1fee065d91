// What is due: what stayed from the turn before, then what was listed.

ghost use Rattle.std.specs.Prelude.{◌≡◌, IfOk};
ghost use Rattle.serve_loop.specs.Turn.{due_now, listed_slots, listed_links};

use crate::Numbers;
use px_bytes::{M, Seq};
use px_outside::{ReadyAt, ReadyList};
use std::alloc::Global;

/// The listeners that are due, each once.
pub fn due_slots(alloc: Global, stayed: &Seq<u32>, listed: &ReadyList) -> M<Numbers>
    ensures { IfOk result (λ due. due ≡ due_now stayed.now (listed_slots listed.now)) }
{
    let mut due = Numbers::new(alloc);
    due.add_all(stayed.as_slice())?;
    let listed = slots_in(alloc, listed.as_slice())?;
    due.add_all(listed.as_slice())?;
    Ok(due)
}

/// The links that are due, each once.
pub fn due_links(alloc: Global, stayed: &Seq<u32>, listed: &ReadyList) -> M<Numbers>
    ensures { IfOk result (λ due. due ≡ due_now stayed.now (listed_links listed.now)) }
{
    let mut due = Numbers::new(alloc);
    due.add_all(stayed.as_slice())?;
    let listed = links_in(alloc, listed.as_slice())?;
    due.add_all(listed.as_slice())?;
    Ok(due)
}

fn slots_in(alloc: Global, listed: &[ReadyAt]) -> M<Seq<u32>>
    ensures { IfOk result (λ slots. slots ≡ listed_slots listed.now) }
{
    let mut slots = Seq::new(alloc);
    for at in listed {
        match at {
            ReadyAt::Listener(slot) => slots.push(*slot)?,
            ReadyAt::Link(_) => {}
        }
    }
    Ok(slots)
}

fn links_in(alloc: Global, listed: &[ReadyAt]) -> M<Seq<u32>>
    ensures { IfOk result (λ links. links ≡ listed_links listed.now) }
{
    let mut links = Seq::new(alloc);
    for at in listed {
        match at {
            ReadyAt::Listener(_) => {}
            ReadyAt::Link(link) => links.push(*link)?,
        }
    }
    Ok(links)
}
