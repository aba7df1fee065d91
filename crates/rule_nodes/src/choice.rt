// The choice of a `switch`.

ghost use Rattle.std.specs.Prelude.{List, [], drop, false, option_map, slice_get, take};
ghost use Rattle.std.specs.Prelude.{unwrap_or, ◌-◌, ◌≡◌};
ghost use Rattle.px_bytes.specs.Gives.{Gives};
ghost use Rattle.tcl_trees.specs.declared.node.Node.{out-Node};
ghost use Rattle.rule_model.specs.Control.{first_hit, hit_in, hit_of, hits, is_glob};
ghost use Rattle.rule_nodes.specs.Choice.{first_body_of, is_next_in};

use px_bytes::{Raise, TclFault, Text, glob};
use std::alloc::Global;
use tcl_trees::Node;

/// The number of the case whose pattern is hit, where one is: so many words are options and the
/// text, and the patterns stand behind them.
pub fn hit_of(alloc: Global, front: usize, words: &[Text]) -> Result<Option<usize>, Raise>
    ensures { Gives result (hit_of front words.now) }
{
    match is_glob(options(front, words)) {
        Some(glob) => Ok(hit_in(glob, front, words)),
        None => Err(Raise::Fault(TclFault::syntax_error(alloc, b"switch")?)),
    }
}

// The number of the first pattern that is hit.
fn hit_in(by_glob: bool, front: usize, words: &[Text]) -> Option<usize>
    ensures { result ≡ hit_in by_glob front words.now }
{
    first_hit(by_glob, text_of(front, words), patterns(front, words))
}

fn options(front: usize, words: &[Text]) -> &[Text]
    ensures { result.now ≡ take (front - 1) words.now }
{
    let before = front.saturating_sub(1);
    if before < words.len() {
        &words[..before]
    } else {
        words
    }
}

fn text_of(front: usize, words: &[Text]) -> &[u8]
    ensures { result.now ≡ unwrap_or (slice_get words.now (front - 1)) [] }
{
    match words.get(front.saturating_sub(1)) {
        Some(text) => text.as_bytes(),
        None => b"",
    }
}

fn patterns(front: usize, words: &[Text]) -> &[Text]
    ensures { result.now ≡ drop front words.now }
{
    if front < words.len() {
        &words[front..]
    } else {
        &[]
    }
}

// Whether patterns are like those of `string match`; none where an option is none.
#[tactic(auto, using(crate::proofs::Hits::glob_none))]
fn is_glob(options: &[Text]) -> Option<bool>
    ensures { result ≡ is_glob false options.now }
{
    let mut glob = false;
    for option in options {
        let option = option.as_bytes();
        if option == b"-exact".as_slice() {
            glob = false;
        } else if option == b"-glob".as_slice() {
            glob = true;
        } else if option != b"--".as_slice() {
            return None;
        }
    }
    Some(glob)
}

fn first_hit(by_glob: bool, text: &[u8], patterns: &[Text]) -> Option<usize>
    ensures { result ≡ first_hit by_glob text.now patterns.now }
{
    let mut at = 0;
    let mut rest = patterns;
    while let [pattern, more @ ..] = rest {
        if hits(by_glob, text, pattern.as_bytes(), more) {
            return Some(at);
        }
        at += 1;
        rest = more;
    }
    None
}

fn hits(by_glob: bool, text: &[u8], pattern: &[u8], more: &[Text]) -> bool
    ensures { result ≡ hits by_glob text.now pattern.now more.now }
{
    if more.is_empty() && pattern == b"default".as_slice() {
        return true;
    }
    if by_glob {
        glob(pattern, text)
    } else {
        pattern == text
    }
}

/// The first body from the case of this number on, where one is left: `-` means the next one.
pub fn first_body(bodies: &[Node], from: usize) -> Option<&Node>
    ensures { option_map (λ n. n.now) result ≡ first_body_of (drop from bodies.now) }
{
    for at in from..bodies.len() {
        if !is_next(&bodies[at]) {
            return Some(&bodies[at]);
        }
    }
    None
}

// Whether the next body is meant.
fn is_next(body: &Node) -> bool
    ensures { result ≡ is_next_in (out-Node body.now) }
{
    matches!(body, Node::NextBody)
}
