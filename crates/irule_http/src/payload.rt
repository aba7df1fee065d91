// What HTTP commands ask of a message's body, and what they change of what was gathered of it.

ghost use Rattle.std.specs.Prelude.{◌≡◌, ◌++◌, IfOk, OnOk};
ghost use Rattle.px_bytes.specs.Gives.{Gives};
ghost use Rattle.irule_net.specs.Requests.{count_in};
ghost use Rattle.irule_net.specs.Steps.{replaced};
ghost use Rattle.irule_http.specs.Commands.{Leaves};
ghost use Rattle.irule_http.specs.Payload.{collects, collects_word, count_of, counts_in, has_body};
ghost use Rattle.irule_http.specs.Payload.{numbers_of, part_of, releases, replaces, replaces_by};

use crate::Http;
use crate::edits::{may_change, no_value};
use crate::faults::not_here;
use crate::words::word_at;
use http_frames::Body;
use px_bytes::{HostAnswer, M, Raise, TclFault, Text, number};
use std::alloc::Global;

/// The most bytes that are gathered of a body.
pub(crate) const PAYLOAD_LIMIT: usize = 1_048_576;

fn count_in(alloc: Global, number: i64) -> Result<usize, Raise>
    ensures { Gives result (count_in number) }
{
    match usize::try_from(number) {
        Ok(count) => Ok(count),
        Err(_) => Err(Raise::Fault(TclFault::out_of_range(alloc)?)),
    }
}

// A word as a number that isn't negative.
fn count_of(alloc: Global, word: &[u8]) -> Result<usize, Raise>
    ensures { Gives result (count_of word.now) }
{
    count_in(alloc, number(alloc, word)?)
}

/// `HTTP::collect`, of so many bytes.
pub(crate) fn collects(
    alloc: Global,
    state: &mut Http,
    name: &[u8],
    count: usize,
) -> Result<HostAnswer, Raise>
    ensures { Leaves (collects name.now count state.old) result state.new }
{
    may_change(alloc, true, name, state)?;
    if count != 0 {
        state.collect = count.min(PAYLOAD_LIMIT);
    }
    Ok(no_value(alloc))
}

/// `HTTP::collect N`
pub(crate) fn collects_word(
    alloc: Global,
    state: &mut Http,
    name: &[u8],
    words: &[Text],
) -> Result<HostAnswer, Raise>
    ensures { Leaves (collects_word name.now words.now state.old) result state.new }
{
    let count = count_of(alloc, word_at(words, 0))?;
    collects(alloc, state, name, count)
}

/// `HTTP::release`
pub(crate) fn releases(alloc: Global, state: &mut Http, name: &[u8]) -> Result<HostAnswer, Raise>
    ensures { Leaves (releases name.now state.old) result state.new }
{
    may_change(alloc, true, name, state)?;
    state.collect = 0;
    Ok(no_value(alloc))
}

fn has_body(body: Body) -> bool
    ensures { result ≡ has_body body }
{
    match body {
        Body::None => false,
        _ => true,
    }
}

fn numbers_of(alloc: Global, first: &[u8], second: &[u8]) -> Result<(i64, i64), Raise>
    ensures { Gives result (numbers_of first.now second.now) }
{
    let first = number(alloc, first)?;
    let second = number(alloc, second)?;
    Ok((first, second))
}

fn counts_in(alloc: Global, first: i64, second: i64) -> Result<(usize, usize), Raise>
    ensures { Gives result (counts_in first second) }
{
    let offset = count_in(alloc, first)?;
    let count = count_in(alloc, second)?;
    Ok((offset, count))
}

// Both words are whole numbers before one is tested for its range.
fn part_of(alloc: Global, first: &[u8], second: &[u8]) -> Result<(usize, usize), Raise>
    ensures { Gives result (part_of first.now second.now) }
{
    let (first, second) = numbers_of(alloc, first, second)?;
    counts_in(alloc, first, second)
}

// So many bytes from a place on replaced, or as many as are there.
fn replaced(alloc: Global, offset: usize, count: usize, text: &[u8], payload: &[u8]) -> M<Text>
    ensures { IfOk result (λ t. t ≡ replaced offset count text.now payload.now) }
{
    let (front, rest) = payload.split_at(offset.min(payload.len()));
    let (_, back) = rest.split_at(count.min(rest.len()));
    let mut changed = Text::new(alloc, front)?;
    match push_both(&mut changed, text, back) {
        Ok(()) => Ok(changed),
        Err(why) => {
            drop(changed);
            Err(why)
        }
    }
}

fn push_both(changed: &mut Text, text: &[u8], back: &[u8]) -> M<()>
    ensures { OnOk result (changed.new ≡ changed.old ++ (text.now ++ back.now)) }
{
    changed.push(text)?;
    changed.push(back)
}

/// `HTTP::payload replace OFFSET LENGTH TEXT`
pub(crate) fn replaces(
    alloc: Global,
    state: &mut Http,
    name: &[u8],
    words: &[Text],
) -> Result<HostAnswer, Raise>
    ensures { Leaves (replaces name.now words.now state.old) result state.new }
{
    let (offset, count) = part_of(alloc, word_at(words, 1), word_at(words, 2))?;
    let payload = state.payload.as_bytes();
    let payload = replaced(alloc, offset, count, word_at(words, 3), payload)?;
    replaces_by(alloc, state, name, payload)
}

fn replaces_by(
    alloc: Global,
    state: &mut Http,
    name: &[u8],
    payload: Text,
) -> Result<HostAnswer, Raise>
    ensures { Leaves (replaces_by name.now payload state.old) result state.new }
{
    if payload.len() > PAYLOAD_LIMIT {
        return Raise::too_long(alloc);
    }
    if !has_body(state.body) {
        return not_here(alloc, name);
    }
    may_change(alloc, true, name, state)?;
    state.payload = payload;
    Ok(no_value(alloc))
}
