// Which parentheses and question marks of an expression are open before an operand.

ghost use Rattle.std.specs.Prelude.{◌≡◌, ◌-◌, map};
ghost use Rattle.tcl_words.specs.View.{part_view};
ghost use Rattle.tcl_trees.specs.Opened.{counted, first_start, last_end, one_more, part_span};
ghost use Rattle.tcl_trees.specs.Opened.{scanned, turned};

use tcl_trees::{Enclosure, Opened};
use tcl_words::{Part, Span, stands};

#[tactic(auto, unfolding(tcl_trees::specs::Opened::one_more))]
fn one_more(count: usize) -> usize
    ensures { result ≡ one_more count }
{
    match count.checked_add(1) {
        Some(more) => more,
        None => usize::MAX,
    }
}

/// How many are open behind the byte at the place.
#[tactic(auto, unfolding(tcl_trees::specs::Opened::turned))]
fn turned(text: &[u8], at: usize, count: usize) -> usize
    ensures { result ≡ turned text.now at count }
{
    if stands(text, at, b'(') || stands(text, at, b'?') {
        return one_more(count);
    }
    if stands(text, at, b')') || stands(text, at, b':') {
        return count.saturating_sub(1);
    }
    count
}

/// How many are open at a place, where so many are at an earlier one and no operand stands between.
fn counted(text: &[u8], from: usize, to: usize, before: usize) -> usize
    ensures { result ≡ counted text.now (to - from) from before }
{
    let mut count = before;
    for at in from..to {
        count = turned(text, at, count);
    }
    count
}

fn span_of(part: &Part) -> Span
    ensures { result ≡ part_span (part_view part.now) }
{
    match part {
        Part::Plain { span, .. }
        | Part::Variable { span, .. }
        | Part::Element { span, .. }
        | Part::Bracket { span, .. } => *span,
    }
}

/// Where the first part begins.
fn first_start(parts: &[Part], otherwise: usize) -> usize
    ensures { result ≡ first_start otherwise (map part_view parts.now) }
{
    match parts.first() {
        Some(part) => span_of(part).start,
        None => otherwise,
    }
}

/// Where the last part ends.
fn last_end(parts: &[Part], otherwise: usize) -> usize
    ensures { result ≡ last_end otherwise (map part_view parts.now) }
{
    let mut end = otherwise;
    for part in parts {
        end = span_of(part).end;
    }
    end
}

/// What stands around the parts of the expression's next operand.
#[tactic(auto, unfolding(tcl_trees::specs::Opened::scanned))]
pub(crate) fn scanned(text: &[u8], parts: &[Part], opened: Opened) -> Enclosure
    ensures { result ≡ scanned text.now (map part_view parts.now) opened }
{
    let start = first_start(parts, opened.at);
    let count = counted(text, opened.at, start, opened.count);
    let at = last_end(parts, start);
    let behind = Opened { at, count };
    let quoted = stands(text, start.saturating_sub(1), b'"');
    let openers = if quoted { one_more(count) } else { count };
    Enclosure {
        quoted,
        openers,
        behind,
    }
}
