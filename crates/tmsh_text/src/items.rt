// Items of a stanza.

ghost use Rattle.std.specs.Prelude.{◌≡◌, IfOk, map};
ghost use Rattle.std.specs.Fmt.{decimal};
ghost use Rattle.tmsh_text.specs.Items.{item, joined, number_item, short_item, stanza};

use px_bytes::{M, Text};
use std::alloc::Global;

/// The parts, one behind another.
pub(crate) fn joined(alloc: Global, parts: &[&[u8]]) -> M<Text>
    ensures { IfOk result (λ text. text ≡ joined (map (λ part. part.now) parts.now)) }
{
    let mut text = Text::empty(alloc);
    for part in parts {
        text.push(part)?;
    }
    Ok(text)
}

/// A stanza with these items.
pub(crate) fn stanza(alloc: Global, head: &[u8], name: &[u8], items: &[u8]) -> M<Text>
    ensures { IfOk result (λ text. text ≡ stanza head.now name.now items.now) }
{
    joined(alloc, &[head, name, b" {\n", items, b"}\n"])
}

/// An item on a line of its own.
pub(crate) fn item(alloc: Global, word: &[u8], value: &[u8]) -> M<Text>
    ensures { IfOk result (λ text. text ≡ item word.now value.now) }
{
    joined(alloc, &[b"    ", word, b" ", value, b"\n"])
}

fn print_number(alloc: Global, number: u32) -> M<Text>
    ensures { IfOk result (λ text. text ≡ decimal number) }
{
    Ok(Text::from_vec(format!(in alloc; "{number}")?.into_bytes()))
}

/// A number on a line of its own, unless it is the usual one.
pub(crate) fn number_item(alloc: Global, word: &[u8], usual: u32, number: u32) -> M<Text>
    ensures { IfOk result (λ text. text ≡ number_item word.now usual number) }
{
    if number == usual {
        return Ok(Text::empty(alloc));
    }
    let value = print_number(alloc, number)?;
    item(alloc, word, value.as_bytes())
}

/// A number of an item, unless it is the usual one.
pub(crate) fn short_item(alloc: Global, word: &[u8], usual: u32, number: u32) -> M<Text>
    ensures { IfOk result (λ text. text ≡ short_item word.now usual number) }
{
    if number == usual {
        return Ok(Text::empty(alloc));
    }
    let value = print_number(alloc, number)?;
    joined(alloc, &[b" ", word, b" ", value.as_bytes()])
}
