// The pieces of a word, up to the first part that has to run.

ghost use Rattle.std.specs.Prelude.{IfOk, OnOk, drop, option_map, ◌+◌, ◌≡◌};
ghost use Rattle.tcl_trees.specs.TreeView.{node_view, nodes_view};
ghost use Rattle.frames.specs.Leafs.{leaf_code};
ghost use Rattle.frame_words.specs.Pieces.{added_end, added_text, pieces_behind};
ghost use Rattle.frame_words.specs.Pieces.{pieces_behind_cost, pieces_cost, pieces_from};

use frames::{is_leaf, leaf_code};
use px_bytes::{M, Steps, TEXT_LIMIT, TclFault, Text};
use rule_model::Code;
use std::alloc::Global;
use std::sync::ledger::Ledger;
use tcl_trees::Node;
use tcl_vars::Vars;

/// What is known of a word: its text, the code that ends it, or the part that has to run first,
/// with the text before it.
#[derive(Drop)]
pub(crate) enum Piece {
    Whole(Text),
    Ends(Code),
    Child { part: usize, text: Text },
}

// Adds the value of a leaf to a text; the code that ends it, where it has none or is too long.
#[inline(always)]
fn add_leaf(
    alloc: Global,
    statics: Option<&Vars>,
    vars: &Vars,
    node: &Node,
    text: &mut Text,
) -> M<Option<Code>>
    ensures end { let level = option_map (λ v. v.now.statics) statics.entry in
        let code = leaf_code level vars.now (node_view node.now) in
        IfOk result (λ end. end ≡ added_end code text.old) }
    ensures text { let level = option_map (λ v. v.now.statics) statics.entry in
        let code = leaf_code level vars.now (node_view node.now) in
        OnOk result (text.new ≡ added_text code text.old) }
{
    match leaf_code(alloc, statics, vars, node)? {
        Code::Value(value) => {
            text.push(value.as_bytes())?;
            if text.len() > TEXT_LIMIT {
                return Ok(Some(Code::Raised(TclFault::too_long(alloc)?)));
            }
            Ok(None)
        }
        code => Ok(Some(code)),
    }
}

/// The pieces of a word from one of its parts on, behind this text; each part costs so much.
#[inline(always)]
pub(crate) fn pieces<K: Ledger>(
    alloc: Global,
    statics: Option<&Vars>,
    vars: &Vars,
    parts: &[Node],
    first: usize,
    price: u64,
    text: Text,
    paid: &mut Steps<K>,
) -> M<Piece>
    ensures piece { let level = option_map (λ v. v.now.statics) statics.entry in
        let rest = drop first (nodes_view parts.now) in
        IfOk result (λ p. p ≡ pieces_from level vars.now rest first text) }
    ensures cost { let level = option_map (λ v. v.now.statics) statics.entry in
        let rest = drop first (nodes_view parts.now) in
        OnOk result (paid.new ≡ paid.old + pieces_cost price level vars.now rest text) }
{
    let mut text = text;
    for part in first..parts.len() {
        paid.add(price);
        let node = &parts[part];
        if !is_leaf(node) {
            return Ok(Piece::Child { part, text });
        }
        match add_leaf(alloc, statics, vars, node, &mut text)? {
            Some(code) => return Ok(Piece::Ends(code)),
            None => {}
        }
    }
    Ok(Piece::Whole(text))
}

/// The pieces behind the part of this number, which came to this value.
pub(crate) fn pieces_behind<K: Ledger>(
    alloc: Global,
    statics: Option<&Vars>,
    vars: &Vars,
    parts: &[Node],
    part: usize,
    price: u64,
    text: Text,
    value: &Text,
    paid: &mut Steps<K>,
) -> M<Piece>
    ensures piece { let level = option_map (λ v. v.now.statics) statics.entry in
        let ts = nodes_view parts.now in
        IfOk result (λ p. p ≡ pieces_behind level vars.now ts part text value.now) }
    ensures cost { let level = option_map (λ v. v.now.statics) statics.entry in
        let ts = nodes_view parts.now in
        let cost = pieces_behind_cost price level vars.now ts part text value.now in
        OnOk result (paid.new ≡ paid.old + cost) }
{
    let mut text = text;
    text.push(value.as_bytes())?;
    if text.len() > TEXT_LIMIT {
        return Ok(Piece::Ends(Code::Raised(TclFault::too_long(alloc)?)));
    }
    if part >= parts.len() {
        return Ok(Piece::Whole(text));
    }
    pieces(alloc, statics, vars, parts, part + 1, price, text, paid)
}
