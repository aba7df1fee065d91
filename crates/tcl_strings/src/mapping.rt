// Keys in a text that are replaced: `string map`.

ghost use Rattle.std.specs.Prelude.{◌≡◌, ◌+◌, ◌*◌, ◌<◌, ◌≤◌, IfOk, drop, length, map};
ghost use Rattle.std.specs.Prelude.{option_map};
ghost use Rattle.px_bytes.specs.Gives.{Gives};
ghost use Rattle.px_bytes.specs.Limit.{is_short, limited};
ghost use Rattle.tcl_strings.specs.FirstKeys.{IsTable, keys_of, pair_in};
ghost use Rattle.tcl_strings.specs.Mapping.{first_pair, map_value, mapped, more_at, written_at};

use crate::first_keys::first_keys;
use px_bytes::{M, Raise, TEXT_LIMIT, Text};
use std::alloc::Global;
use tcl_lists::{ListFault, split};

/// The text with each key of a list of keys and values replaced by its value; a fault where it is
/// no such list, or where the result is too long.
pub(crate) fn map(alloc: Global, pairs: &[u8], text: &[u8]) -> Result<Text, Raise>
    ensures { Gives result (map_value pairs.now text.now) }
{
    match split(alloc, pairs) {
        Ok(words) if words.len() % 2 == 0 => mapped_within(alloc, words.as_slice(), text),
        Err(ListFault::Memory) => Err(Raise::Memory),
        _ => Raise::syntax(alloc, b"string"),
    }
}

fn mapped_within(alloc: Global, pairs: &[Text], text: &[u8]) -> Result<Text, Raise>
    ensures { Gives result (limited (mapped pairs.now 0 text.now)) }
{
    let keys = keys_of(alloc, pairs)?;
    let numbers = first_keys(alloc, &keys, text)?;
    if !fits(pairs, &numbers, text) {
        return Raise::too_long(alloc);
    }
    Ok(mapped(alloc, pairs, &numbers, text)?)
}

fn keys_of<'a>(alloc: Global, pairs: &'a [Text]) -> M<Vec<&'a [u8]>>
    ensures { IfOk result (λ keys. map (λ k. k.now) keys.items ≡ keys_of pairs.now) }
{
    let mut keys = Vec::new(alloc);
    let mut rest = pairs;
    while let [key, _, more @ ..] = rest {
        keys.push(key.as_bytes())?;
        rest = more;
    }
    Ok(keys)
}

fn fits(pairs: &[Text], numbers: &[usize], text: &[u8]) -> bool
    requires { IsTable (keys_of pairs.now) numbers.now text.now }
    ensures { result ≡ is_short (mapped pairs.now 0 text.now) }
{
    let mut size = 0usize;
    let mut rest = text;
    while !rest.is_empty() {
        let (written, taken) = step(pairs, numbers, rest);
        size += written.len();
        if size > TEXT_LIMIT {
            return false;
        }
        rest = rest.split_at(taken).1;
    }
    true
}

fn mapped(alloc: Global, pairs: &[Text], numbers: &[usize], text: &[u8]) -> M<Text>
    requires { IsTable (keys_of pairs.now) numbers.now text.now }
    ensures { IfOk result (λ t. t ≡ mapped pairs.now 0 text.now) }
{
    let mut out = Text::empty(alloc);
    let mut rest = text;
    while !rest.is_empty() {
        let (written, taken) = step(pairs, numbers, rest);
        out.push(written)?;
        rest = rest.split_at(taken).1;
    }
    Ok(out)
}

// What is written for the front of a text, and how many of its bytes that stands for.
fn step<'a>(pairs: &'a [Text], numbers: &[usize], text: &'a [u8]) -> (&'a [u8], usize)
    requires some { 0 < length text.now }
    requires numbers { IsTable (keys_of pairs.now) numbers.now text.now }
    ensures written { result.0.now ≡ written_at pairs.now text.now }
    ensures taken { result.1 ≡ more_at pairs.now text.now + 1 }
    ensures within { result.1 ≤ length text.now }
{
    match first_pair(pairs, numbers, text) {
        Some((key, value)) => (value.as_bytes(), key.len()),
        None => (&text[..1], 1),
    }
}

// The first key with which the text begins, and its value.
fn first_pair<'a>(pairs: &'a [Text], numbers: &[usize], text: &[u8]) -> Option<(&'a Text, &'a Text)>
    requires some { 0 < length text.now }
    requires numbers { IsTable (keys_of pairs.now) numbers.now text.now }
    ensures { option_map (λ p. (p.0.now, p.1.now)) result ≡ first_pair pairs.now text.now }
{
    pair_at(pairs, numbers[text.len() - 1])
}

// The key of a number, and its value.
fn pair_at<'a>(pairs: &'a [Text], number: usize) -> Option<(&'a Text, &'a Text)>
    requires { 2 * number ≤ length pairs.now }
    ensures { option_map (λ p. (p.0.now, p.1.now)) result
        ≡ pair_in (drop (2 * number) pairs.now) }
{
    match pairs.split_at(2 * number).1 {
        [key, value, ..] => Some((key, value)),
        _ => None,
    }
}
