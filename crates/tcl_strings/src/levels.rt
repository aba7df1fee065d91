// Keys that are entered into an automaton, one byte of each a round, so that suffixes come by
// rising length.

ghost use Rattle.std.specs.Prelude.{◌≡◌, ◌+◌, [], ◌∷◌, map, IfOk, OnOk};
ghost use Rattle.std.specs.List.{All};
ghost use Rattle.tcl_strings.specs.Automaton.{Grows, IsUpTo};
ghost use Rattle.tcl_strings.specs.Suffixes.{IsSound, texts};
ghost use Rattle.tcl_strings.specs.Levels.{HasNode, IsAtDepth, IsOnItsWay, longest_length};

use crate::suffixes::Suffixes;
use px_bytes::M;
use std::alloc::Global;

// A key, and the node of as many bytes at its end as are entered.
#[derive(Clone, Copy)]
struct Climb<'a> {
    key: &'a [u8],
    node: usize,
}

/// The suffixes of keys.
pub(crate) fn suffixes_of<'a>(alloc: Global, keys: &[&'a [u8]]) -> M<Suffixes<'a>>
    ensures sound { IfOk result (λ s. IsSound s) }
    ensures keys { IfOk result (λ s. All (λ key. HasNode (texts s) key.now) keys.now) }
{
    let mut suffixes = Suffixes::new(alloc)?;
    let mut level = first_level(alloc, keys)?;
    for depth in 0..longest(keys) {
        level = next_level(alloc, &mut suffixes, &level, depth)?;
    }
    Ok(suffixes)
}

// The keys that have a byte, none of which is entered.
fn first_level<'a>(alloc: Global, keys: &[&'a [u8]]) -> M<Vec<Climb<'a>>>
    ensures depth { IfOk result (λ level. All (IsAtDepth ([] ∷ []) 0) level.items) }
    ensures whole { IfOk result (λ level.
        All (λ key. IsOnItsWay ([] ∷ []) level.items key.now) keys.now) }
{
    let mut level = Vec::new(alloc);
    for key in keys {
        if !key.is_empty() {
            level.push(Climb { key: *key, node: 0 })?;
        }
    }
    Ok(level)
}

// One more byte of each key is entered. The next round has the keys with bytes left.
fn next_level<'a>(
    alloc: Global,
    suffixes: &mut Suffixes<'a>,
    level: &[Climb<'a>],
    depth: usize,
) -> M<Vec<Climb<'a>>>
    requires sound { IsSound suffixes.old }
    requires tallest { IsUpTo (texts suffixes.old) (depth + 1) }
    requires level { All (IsAtDepth (texts suffixes.old) depth) level.now }
    ensures sound { OnOk result (IsSound suffixes.new) }
    ensures grows { OnOk result (Grows (texts suffixes.old) (texts suffixes.new)) }
    ensures tallest { OnOk result (IsUpTo (texts suffixes.new) (depth + 1)) }
    ensures depth { IfOk result (λ next.
        All (IsAtDepth (texts suffixes.new) (depth + 1)) next.items) }
    ensures whole { IfOk result (λ next.
        All (λ climb. IsOnItsWay (texts suffixes.new) next.items climb.key.now) level.now) }
{
    let mut next = Vec::new(alloc);
    for climb in level {
        let suffix = &climb.key[climb.key.len() - depth - 1..];
        let node = suffixes.add(climb.node, suffix)?;
        if suffix.len() < climb.key.len() {
            next.push(Climb {
                key: climb.key,
                node,
            })?;
        }
    }
    Ok(next)
}

// The length of the longest key, 0 where there is none.
fn longest(keys: &[&[u8]]) -> usize
    ensures { result ≡ longest_length (map (λ k. k.now) keys.now) }
{
    let mut most = 0usize;
    for key in keys {
        most = most.max(key.len());
    }
    most
}
