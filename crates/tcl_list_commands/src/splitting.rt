// Texts cut into lists.

ghost use Rattle.std.specs.Prelude.{◌≡◌, IfOk, map};
ghost use Rattle.std.specs.List.{position_or_len, slice_split};
ghost use Rattle.px_bytes.specs.ByteSet.{has_byte};
ghost use Rattle.px_bytes.specs.Gives.{Gives};
ghost use Rattle.tcl_lists.specs.Write.{joined};
ghost use Rattle.tcl_list_commands.specs.Splitting.{alone, pieces_by, split_value};
ghost use Rattle.px_bytes.specs.Limit.{limited};

use crate::writing::written;
use px_bytes::{ByteSet, M, Raise, Text, Texts, byte_set, has_byte};
use std::alloc::Global;

/// `split TEXT ?CHARS?`: the pieces of the text between the bytes of CHARS, which is white space by
/// default; each byte where CHARS is empty. The empty text has no piece.
pub fn split_text(alloc: Global, arguments: &[Text]) -> Result<Text, Raise>
    ensures { Gives result (split_value arguments.now) }
{
    match arguments {
        [text] => split_by(alloc, text.as_bytes(), b" \t\n\x0b\x0c\r"),
        [text, chars] => split_by(alloc, text.as_bytes(), chars.as_bytes()),
        _ => Raise::arity(alloc, b"split"),
    }
}

fn split_by(alloc: Global, text: &[u8], chars: &[u8]) -> Result<Text, Raise>
    ensures { Gives result (limited (joined (pieces_by chars.now text.now))) }
{
    written(alloc, &pieces_by(alloc, text, chars)?)
}

fn pieces_by(alloc: Global, text: &[u8], chars: &[u8]) -> M<Texts>
    ensures { IfOk result (λ pieces. pieces ≡ pieces_by chars.now text.now) }
{
    if text.is_empty() {
        return Ok(Texts::new(alloc));
    }
    if chars.is_empty() {
        return each_alone(alloc, text);
    }
    pieces(alloc, text, &byte_set(chars))
}

fn each_alone(alloc: Global, text: &[u8]) -> M<Texts>
    ensures { IfOk result (λ pieces. pieces ≡ map alone text.now) }
{
    let mut pieces = Texts::new(alloc);
    for byte in text {
        pieces.push(Text::new(alloc, &[*byte])?)?;
    }
    Ok(pieces)
}

fn pieces(alloc: Global, text: &[u8], cuts: &ByteSet) -> M<Texts>
    ensures { IfOk result (λ pieces. pieces ≡ slice_split (has_byte cuts.now) text.now) }
{
    let mut pieces = Texts::new(alloc);
    let mut rest = text;
    loop {
        let (piece, other) = rest.split_at(piece_len(rest, cuts));
        pieces.push(Text::new(alloc, piece)?)?;
        let [_, behind @ ..] = other else {
            return Ok(pieces);
        };
        rest = behind;
    }
}

// How many bytes stand before the first at which the text is cut.
fn piece_len(text: &[u8], cuts: &ByteSet) -> usize
    ensures { result ≡ position_or_len (has_byte cuts.now) text.now }
{
    text.iter()
        .position(|byte| has_byte(cuts, *byte))
        .unwrap_or(text.len())
}
