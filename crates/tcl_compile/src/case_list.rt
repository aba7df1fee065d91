// The braced word of a `switch`, read as a list.

ghost use Rattle.std.specs.Prelude.{◌≡◌, IfOk, option_map};
ghost use Rattle.tcl_words.specs.View.{word_view};
ghost use Rattle.tcl_trees.specs.CaseList.{item_from, items, opener_of, other_item, word_items};
ghost use Rattle.tcl_trees.specs.TreeView.{node_view};

use crate::compiler::Compiler;
use crate::notes::nothing;
use crate::places::place_in;
use px_bytes::{M, Memory, Text};
use std::alloc::Global;
use tcl_lists::{ElementPlace, ListFault, places, split};
use tcl_trees::{CaseItem, Flaw, Node};
use tcl_words::{Word, stands};

/// The place of the brace or quote of the element whose bytes begin here.
fn opener_of(text: &[u8], start: usize) -> usize
    ensures { result ≡ opener_of text.now start }
{
    let before = start.saturating_sub(1);
    if stands(text, before, b'{') || stands(text, before, b'"') {
        return before;
    }
    start
}

/// The element of the text at its place, with its value.
fn item_from(text: &[u8], place: &ElementPlace, value: &Text) -> M<CaseItem>
    ensures { IfOk result (λ item. item ≡ item_from text.now place.now value.now) }
{
    Ok(CaseItem {
        text: value.copy()?,
        start: place.start,
        opener: opener_of(text, place.start),
        braced: place.braced,
    })
}

/// The elements of a list, or none where the text is none.
pub(crate) fn items(alloc: Global, text: &[u8]) -> M<Option<Vec<CaseItem>>>
    ensures { IfOk result (λ r. option_map (λ v. v.items) r ≡ items text.now) }
{
    let places = match places(alloc, text) {
        Ok(places) => places,
        Err(ListFault::Memory) => return Err(Memory),
        Err(_) => return Ok(None),
    };
    let values = match split(alloc, text) {
        Ok(values) => values,
        Err(ListFault::Memory) => return Err(Memory),
        Err(_) => return Ok(None),
    };
    let mut items = Vec::new(alloc);
    for at in 0..places.len() {
        let (Some(place), Some(value)) = (places.get(at), values.get(at)) else {
            return Ok(None);
        };
        let item = item_from(text, place, value)?;
        items.push(item)?;
    }
    Ok(Some(items))
}

/// The elements that stand in a word without substitution, or none where it holds no list.
pub(crate) fn word_items(alloc: Global, word: &Word) -> M<Option<Vec<CaseItem>>>
    ensures { IfOk result (λ r. option_map (λ v. v.items) r ≡ word_items (word_view word.now)) }
{
    match &word.raw {
        Some(raw) => items(alloc, raw.as_bytes()),
        None => Ok(None),
    }
}

impl Compiler {
    /// What an element that isn't in braces stands for.
    pub(crate) fn other_item(
        &mut self,
        alloc: Global,
        place: usize,
        last: bool,
        item: &CaseItem,
    ) -> Node
        ensures { other_item place last item.now self.old.findings ≡ (node_view result, self.new.findings) }
    {
        let at = place_in(place, item.opener);
        if item.text.as_bytes() == b"-".as_slice() {
            return self.next_body(alloc, at, last);
        }
        self.findings.note(Flaw::BadBody(at));
        nothing(alloc)
    }
}
