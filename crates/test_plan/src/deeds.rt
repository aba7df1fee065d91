// What is done, as moves.

ghost use Rattle.std.specs.Prelude.{◌≡◌, ◌∷◌, ◌++◌, [], OnOk, flat_map, map, option_map};
ghost use Rattle.std.specs.Prelude.{slice_get, take};
ghost use Rattle.std.specs.List.{count_by};
ghost use Rattle.test_plan.specs.Plan.{deed_moves, numbered_moves, rested, sends, sent_by};
ghost use Rattle.test_plan.specs.Plan.{together_moves};
ghost use Rattle.test_plan.specs.declared.plan.TestMove.TheVariants.{Rests, Sends};

use crate::choices::sum;
use crate::plan::TestMove;
use px_bytes::{M, Seq, Text};
use std::alloc::Global;
use test_orders::{Cut, pieces};
use test_text::{Deed, PeerDeed, PlacedDeed};

/// The text that is sent by a deed.
pub(crate) fn sent_by(deed: &Deed) -> Option<&Text>
    ensures { option_map (λ t. t.now) result ≡ sent_by deed.now }
{
    match deed {
        Deed::Does {
            deed: PeerDeed::Sends(bytes),
            ..
        } => Some(bytes),
        _ => None,
    }
}

fn sends(deed: &PlacedDeed) -> bool
    ensures { result ≡ sends deed.now }
{
    sent_by(&deed.deed).is_some()
}

// How many of these send.
fn sends_in(deeds: &[PlacedDeed]) -> usize
    ensures { result ≡ count_by sends deeds.now }
{
    deeds.iter().filter(|deed| sends(deed)).count()
}

// Adds pieces, each with a rest before it.
fn add_pieces(moves: &mut Seq<TestMove>, step: usize, at: usize, pieces: &[Text]) -> M<()>
    ensures { OnOk result (moves.new ≡ moves.old
        ++ flat_map (λ m. Rests ∷ (m ∷ [])) (map (λ piece. Sends step at piece) pieces.now)) }
{
    for piece in pieces {
        moves.push(TestMove::Rests)?;
        moves.push(TestMove::Sends {
            step,
            at,
            bytes: piece.copy()?,
        })?;
    }
    Ok(())
}

// Adds pieces, with a rest between each two.
fn add_rested(moves: &mut Seq<TestMove>, step: usize, at: usize, pieces: &[Text]) -> M<()>
    ensures { OnOk result (moves.new ≡ moves.old
        ++ rested (map (λ piece. Sends step at piece) pieces.now)) }
{
    let [first, rest @ ..] = pieces else {
        return Ok(());
    };
    moves.push(TestMove::Sends {
        step,
        at,
        bytes: first.copy()?,
    })?;
    add_pieces(moves, step, at, rest)
}

/// Adds the moves of a deed, whose text has this number.
pub(crate) fn add_deed(
    alloc: Global,
    moves: &mut Seq<TestMove>,
    cut: Cut,
    send: usize,
    step: usize,
    at: usize,
    deed: &Deed,
) -> M<()>
    ensures { OnOk result (moves.new ≡ moves.old ++ deed_moves cut send step at deed.now) }
{
    match sent_by(deed) {
        None => moves.push(TestMove::Does { step, at }),
        Some(bytes) => {
            let found = pieces(alloc, cut, send, bytes.as_bytes())?;
            add_rested(moves, step, at, found.as_slice())
        }
    }
}

// The deed of a number, and those that are written before it.
fn deed_at(deeds: &[PlacedDeed], at: usize) -> Option<&PlacedDeed>
    ensures { option_map (λ d. d.now) result ≡ slice_get deeds.now at }
{
    deeds.get(at)
}

fn before(deeds: &[PlacedDeed], at: usize) -> &[PlacedDeed]
    ensures { result.now ≡ take at deeds.now }
{
    deeds.get(..at).unwrap_or(deeds)
}

// Adds the moves of the deed of a number among several.
fn add_numbered(
    alloc: Global,
    moves: &mut Seq<TestMove>,
    cut: Cut,
    send: usize,
    step: usize,
    deeds: &[PlacedDeed],
    at: usize,
) -> M<()>
    ensures { OnOk result (moves.new ≡ moves.old
        ++ numbered_moves cut send step deeds.now at (slice_get deeds.now at)) }
{
    let Some(deed) = deed_at(deeds, at) else {
        return Ok(());
    };
    let send = sum(send, sends_in(before(deeds, at)))?;
    add_deed(alloc, moves, cut, send, step, at, &deed.deed)
}

/// Adds the moves of what is done together, in an order.
pub(crate) fn add_together(
    alloc: Global,
    moves: &mut Seq<TestMove>,
    cut: Cut,
    send: usize,
    step: usize,
    deeds: &[PlacedDeed],
    order: &[usize],
) -> M<()>
    ensures { OnOk result (moves.new ≡ moves.old
        ++ together_moves cut send step deeds.now order.now) }
{
    for at in order {
        add_numbered(alloc, moves, cut, send, step, deeds, *at)?;
    }
    moves.push(TestMove::Rests)
}
