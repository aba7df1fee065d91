// The first key of a list at each place of a text: on the whole a few look-ups for each byte of the
// keys and of the text.

ghost use Rattle.std.specs.Prelude.{◌≡◌, ◌≤◌, length, map, IfOk};
ghost use Rattle.std.specs.List.{All};
ghost use Rattle.tcl_strings.specs.FirstKeys.{IsFirst, IsOwn, IsTable};
ghost use Rattle.tcl_strings.specs.Levels.{HasNode};
ghost use Rattle.tcl_strings.specs.Suffixes.{IsSound, texts};

use crate::levels::suffixes_of;
use crate::suffixes::Suffixes;
use px_bytes::M;
use std::alloc::Global;

/// For each end of a text, at the index of its length less 1, the number of the first key with
/// which it begins; the number of all keys where there is none.
pub(crate) fn first_keys(alloc: Global, keys: &[&[u8]], text: &[u8]) -> M<Vec<usize>>
    ensures { IfOk result (λ numbers. IsTable (map (λ k. k.now) keys.now) numbers.items text.now) }
{
    let suffixes = suffixes_of(alloc, keys)?;
    let firsts = firsts(alloc, &suffixes, keys)?;
    let mut numbers = Vec::new(alloc);
    let mut node = 0;
    let mut place = text.len();
    while place > 0 {
        place -= 1;
        node = suffixes.step(node, &text[place..]);
        numbers.push(firsts[node])?;
    }
    Ok(numbers)
}

// For each node the number of the first key with which its suffix begins.
fn firsts(alloc: Global, suffixes: &Suffixes, keys: &[&[u8]]) -> M<Vec<usize>>
    requires sound { IsSound suffixes.now }
    requires keys { All (λ key. HasNode (texts suffixes.now) key.now) keys.now }
    ensures { IfOk result (λ numbers.
        IsFirst (texts suffixes.now) (map (λ k. k.now) keys.now) numbers.items) }
{
    let mut numbers = own_numbers(alloc, suffixes, keys)?;
    suffixes.take_least(&mut numbers);
    Ok(numbers)
}

// For each node the number of the first key that is its suffix.
fn own_numbers(alloc: Global, suffixes: &Suffixes, keys: &[&[u8]]) -> M<Vec<usize>>
    requires sound { IsSound suffixes.now }
    requires keys { All (λ key. HasNode (texts suffixes.now) key.now) keys.now }
    ensures { IfOk result (λ numbers.
        IsOwn (texts suffixes.now) (map (λ k. k.now) keys.now) numbers.items) }
{
    let mut numbers = vec![in alloc; keys.len(); suffixes.len()]?;
    let mut number = keys.len();
    while number > 0 {
        number -= 1;
        let node = suffixes.longest(keys[number]);
        numbers[node] = number;
    }
    numbers[0] = keys.len();
    Ok(numbers)
}
