// The pieces of a text that is cut.

ghost use Rattle.std.specs.Prelude.{◌≡◌, ◌∷◌, ◌++◌, [], IfOk, OnOk, map};
ghost use Rattle.test_orders.specs.Cuts.{at_place, pieces, unless_empty};

use crate::cut::Cut;
use px_bytes::{M, Text, Texts};
use std::alloc::Global;

// Adds a piece, unless it is empty.
fn add_piece(alloc: Global, pieces: &mut Texts, bytes: &[u8]) -> M<()>
    ensures { OnOk result (pieces.new ≡ pieces.old ++ unless_empty bytes.now) }
{
    if bytes.is_empty() {
        return Ok(());
    }
    pieces.push(Text::new(alloc, bytes)?)
}

// Adds each byte as a piece.
fn add_bytes(alloc: Global, pieces: &mut Texts, bytes: &[u8]) -> M<()>
    ensures { OnOk result (pieces.new ≡ pieces.old ++ map (λ byte. byte ∷ []) bytes.now) }
{
    for byte in bytes {
        pieces.push(Text::new(alloc, &[*byte])?)?;
    }
    Ok(())
}

// Adds what stands before a place, and what stands behind it.
fn add_both(alloc: Global, pieces: &mut Texts, bytes: &[u8], place: usize) -> M<()>
    ensures { OnOk result (pieces.new ≡ pieces.old ++ at_place place bytes.now) }
{
    let (front, back) = bytes.split_at(place.min(bytes.len()));
    add_piece(alloc, pieces, front)?;
    add_piece(alloc, pieces, back)
}

fn fill(alloc: Global, found: &mut Texts, cut: Cut, send: usize, bytes: &[u8]) -> M<()>
    ensures { OnOk result (found.new ≡ found.old ++ pieces cut send bytes.now) }
{
    match cut {
        Cut::Bytes => add_bytes(alloc, found, bytes),
        Cut::At {
            send: number,
            place,
        } if number == send => add_both(alloc, found, bytes, place),
        _ => add_piece(alloc, found, bytes),
    }
}

/// The pieces of the text of a number, from 0, by a cut. None is empty, so an empty text has none.
pub fn pieces(alloc: Global, cut: Cut, send: usize, bytes: &[u8]) -> M<Texts>
    ensures { IfOk result (λ found. found ≡ pieces cut send bytes.now) }
{
    let mut found = Texts::new(alloc);
    match fill(alloc, &mut found, cut, send, bytes) {
        Ok(()) => Ok(found),
        Err(why) => {
            drop(found);
            Err(why)
        }
    }
}
