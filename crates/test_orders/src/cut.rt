// How the texts that a test sends may be cut.

ghost use Rattle.std.specs.Prelude.{◌≡◌, ◌-◌, ◌∷◌, ◌++◌, [], IfOk, OnOk};
ghost use Rattle.test_orders.specs.Cuts.{cuts, places_from, places_in};

use px_bytes::{M, Seq};
use std::alloc::Global;

/// How what a test sends is cut.
#[derive(Clone, Copy)]
pub enum Cut {
    /// All texts go whole.
    Whole,
    /// All texts go byte by byte.
    Bytes,
    /// The text of this number, from 0, is cut at a place; all others go whole.
    At { send: usize, place: usize },
}

// Adds the places of a text of this length.
fn add_places(cuts: &mut Seq<Cut>, send: usize, length: usize) -> M<()>
    ensures { OnOk result (cuts.new ≡ cuts.old ++ places_from send 1 (length - 1)) }
{
    for place in 1..length {
        cuts.push(Cut::At { send, place })?;
    }
    Ok(())
}

// Adds the places of all texts of these lengths.
fn add_all(cuts: &mut Seq<Cut>, lengths: &[usize]) -> M<()>
    ensures { OnOk result (cuts.new ≡ cuts.old ++ places_in 0 lengths.now) }
{
    for (send, length) in lengths.iter().enumerate() {
        add_places(cuts, send, *length)?;
    }
    Ok(())
}

fn add_first(cuts: &mut Seq<Cut>) -> M<()>
    ensures { OnOk result (cuts.new ≡ cuts.old ++ Cut.Whole ∷ (Cut.Bytes ∷ [])) }
{
    cuts.push(Cut::Whole)?;
    cuts.push(Cut::Bytes)
}

fn fill(found: &mut Seq<Cut>, lengths: &[usize]) -> M<()>
    ensures { OnOk result (found.new ≡ found.old ++ cuts lengths.now) }
{
    add_first(found)?;
    add_all(found, lengths)
}

/// The ways in which texts of these lengths may be cut: all whole, all byte by byte, and each of
/// them at each place.
pub fn cuts(alloc: Global, lengths: &[usize]) -> M<Seq<Cut>>
    ensures { IfOk result (λ found. found ≡ cuts lengths.now) }
{
    let mut found = Seq::new(alloc);
    match fill(&mut found, lengths) {
        Ok(()) => Ok(found),
        Err(why) => {
            drop(found);
            Err(why)
        }
    }
}
