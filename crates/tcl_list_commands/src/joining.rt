// Texts joined by others.

ghost use Rattle.std.specs.Prelude.{◌≡◌, IfOk, length, nat_le};
ghost use Rattle.px_bytes.specs.Gives.{Gives};
ghost use Rattle.tcl_list_commands.specs.Joining.{concat_value, join_value, joined_value};
ghost use Rattle.tcl_list_commands.specs.Joining.{run_together, trimmed_words};
ghost use Rattle.px_bytes.specs.Limit.{limited, text_limit};

use crate::reading::elements;
use px_bytes::{M, Raise, TEXT_LIMIT, Text, Texts, trimmed};
use std::alloc::Global;

/// `concat ?WORD ..?`: the words without the white space around them, those that aren't empty, with
/// a blank between each two.
pub fn concat(alloc: Global, arguments: &[Text]) -> Result<Text, Raise>
    ensures { Gives result (concat_value arguments.now) }
{
    joined_by(alloc, trimmed_words(alloc, arguments)?.as_slice(), b" ")
}

fn trimmed_words(alloc: Global, words: &[Text]) -> M<Texts>
    ensures { IfOk result (λ texts. texts ≡ trimmed_words words.now) }
{
    let mut texts = Texts::new(alloc);
    for word in words {
        let word = trimmed(word.as_bytes());
        if !word.is_empty() {
            texts.push(Text::new(alloc, word)?)?;
        }
    }
    Ok(texts)
}

/// `join LIST ?TEXT?`: the elements with the text between each two, which is a blank by default.
pub fn join(alloc: Global, arguments: &[Text]) -> Result<Text, Raise>
    ensures { Gives result (join_value arguments.now) }
{
    match arguments {
        [list] => joined_elements(alloc, list.as_bytes(), b" "),
        [list, between] => joined_elements(alloc, list.as_bytes(), between.as_bytes()),
        _ => Raise::arity(alloc, b"join"),
    }
}

fn joined_elements(alloc: Global, list: &[u8], between: &[u8]) -> Result<Text, Raise>
    ensures { Gives result (joined_value list.now between.now) }
{
    let elements = elements(alloc, b"join", list)?;
    joined_by(alloc, elements.as_slice(), between)
}

fn joined_by(alloc: Global, pieces: &[Text], between: &[u8]) -> Result<Text, Raise>
    ensures { Gives result (limited (run_together between.now pieces.now)) }
{
    if !fits(pieces, between) {
        return Raise::too_long(alloc);
    }
    Ok(run_together(alloc, pieces, between)?)
}

// Whether the pieces and what stands between them are no longer than a value may be. Each piece
// takes its own bytes and those behind it, the last one also; so there is more room by these.
fn fits(pieces: &[Text], between: &[u8]) -> bool
    ensures { result ≡ nat_le (length (run_together between.now pieces.now)) text_limit }
{
    let mut room = TEXT_LIMIT + between.len();
    for piece in pieces {
        let size = piece.as_bytes().len() + between.len();
        if size > room {
            return false;
        }
        room -= size;
    }
    true
}

fn run_together(alloc: Global, pieces: &[Text], between: &[u8]) -> M<Text>
    ensures { IfOk result (λ text. text ≡ run_together between.now pieces.now) }
{
    let [first, rest @ ..] = pieces else {
        return Ok(Text::empty(alloc));
    };
    let mut text = first.copy()?;
    for piece in rest {
        text.push(between)?;
        text.push(piece.as_bytes())?;
    }
    Ok(text)
}
