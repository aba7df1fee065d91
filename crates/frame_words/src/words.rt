// The words that a node evaluates first, up to the first part that has to run.

ghost use Rattle.std.specs.Prelude.{[], IfOk, OnOk, drop, option_map, ◌+◌, ◌∷◌, ◌≡◌};
ghost use Rattle.tcl_trees.specs.TreeView.{node_view, nodes_view};
ghost use Rattle.tcl_trees.specs.declared.node.Node.{out-Node};
ghost use Rattle.frame_words.specs.Words.{part_price, part_price_in, word_behind};
ghost use Rattle.frame_words.specs.Words.{word_behind_cost, word_unit, word_unit_in};
ghost use Rattle.frame_words.specs.Words.{words_behind, words_behind_cost, words_cost};
ghost use Rattle.frame_words.specs.Words.{words_from};

use crate::pieces::{Piece, pieces, pieces_behind};
use frames::{Values, child_at, word_parts, words_of};
use px_bytes::{M, Steps, TclFault, Text};
use rule_model::Code;
use std::alloc::Global;
use std::sync::ledger::Ledger;
use tcl_trees::Node;
use tcl_vars::Vars;

/// What is known of words: all of them, the code that ends them, or the part that has to run first,
/// with the words and the text before it.
#[derive(Drop)]
pub enum Gathered {
    All(Values),
    Ends(Code),
    Child {
        word: usize,
        part: usize,
        values: Values,
        text: Text,
    },
}

/// What a word costs that has no parts: the patterns of a `switch` may be free.
#[tactic(auto, using(crate::proofs::WordPrices::word_unit_view))]
#[inline(always)]
pub(crate) fn word_unit(node: &Node) -> u64
    ensures { result ≡ word_unit (node_view node.now) }
{
    unit_here(node)
}

#[inline(always)]
fn unit_here(node: &Node) -> u64
    ensures { result ≡ word_unit_in (out-Node node.now) }
{
    match node {
        Node::Switch { .. } => 0,
        _ => 1,
    }
}

/// What each part of a word costs, where a word without parts costs so much.
#[tactic(auto, using(crate::proofs::WordPrices::part_price_view))]
#[inline(always)]
fn part_price(unit: u64, word: &Node) -> u64
    ensures { result ≡ part_price unit (node_view word.now) }
{
    price_here(unit, word)
}

#[inline(always)]
fn price_here(unit: u64, word: &Node) -> u64
    ensures { result ≡ part_price_in unit (out-Node word.now) }
{
    match word {
        Node::Word(parts) => { if parts.is_empty() { unit } else { 1 } }
        _ => unit,
    }
}

/// Words from one on, behind those that are there.
#[inline(always)]
pub(crate) fn words<K: Ledger>(
    alloc: Global,
    statics: Option<&Vars>,
    vars: &Vars,
    all: &[Node],
    first: usize,
    unit: u64,
    values: Values,
    paid: &mut Steps<K>,
) -> M<Gathered>
    ensures words { let level = option_map (λ v. v.now.statics) statics.entry in
        let rest = drop first (nodes_view all.now) in
        IfOk result (λ r. r ≡ words_from level vars.now rest first values) }
    ensures cost { let level = option_map (λ v. v.now.statics) statics.entry in
        let rest = drop first (nodes_view all.now) in
        OnOk result (paid.new ≡ paid.old + words_cost unit level vars.now rest values) }
{
    let mut values = values;
    for word in first..all.len() {
        let node = &all[word];
        let price = part_price(unit, node);
        let text = Text::empty(alloc);
        match pieces(alloc, statics, vars, word_parts(node), 0, price, text, paid)? {
            Piece::Whole(text) => {
                let fits = values.add(text)?;
                if !fits {
                    return Ok(Gathered::Ends(Code::Raised(TclFault::too_long(alloc)?)));
                }
            }
            Piece::Ends(code) => return Ok(Gathered::Ends(code)),
            Piece::Child { part, text } => {
                return Ok(Gathered::Child {
                    word,
                    part,
                    values,
                    text,
                });
            }
        }
    }
    Ok(Gathered::All(values))
}

/// One word, of this number, behind those that are there.
pub(crate) fn one_word<K: Ledger>(
    alloc: Global,
    statics: Option<&Vars>,
    vars: &Vars,
    node: &Node,
    word: usize,
    values: Values,
    paid: &mut Steps<K>,
) -> M<Gathered>
    ensures words { let level = option_map (λ v. v.now.statics) statics.entry in
        let one = node_view node.now ∷ [] in
        IfOk result (λ r. r ≡ words_from level vars.now one word values) }
    ensures cost { let level = option_map (λ v. v.now.statics) statics.entry in
        let one = node_view node.now ∷ [] in
        OnOk result (paid.new ≡ paid.old + words_cost 1 level vars.now one values) }
{
    let mut values = values;
    let text = Text::empty(alloc);
    let price = part_price(1, node);
    match pieces(alloc, statics, vars, word_parts(node), 0, price, text, paid)? {
        Piece::Whole(text) => {
            if !values.add(text)? {
                return Ok(Gathered::Ends(Code::Raised(TclFault::too_long(alloc)?)));
            }
            Ok(Gathered::All(values))
        }
        Piece::Ends(code) => Ok(Gathered::Ends(code)),
        Piece::Child { part, text } => Ok(Gathered::Child {
            word,
            part,
            values,
            text,
        }),
    }
}

/// The words behind the one of this number, which came to this text.
fn words_behind<K: Ledger>(
    alloc: Global,
    statics: Option<&Vars>,
    vars: &Vars,
    node: &Node,
    word: usize,
    values: Values,
    text: Text,
    paid: &mut Steps<K>,
) -> M<Gathered>
    ensures words { let level = option_map (λ v. v.now.statics) statics.entry in
        let t = node_view node.now in
        IfOk result (λ r. r ≡ words_behind level vars.now t word values text) }
    ensures cost { let level = option_map (λ v. v.now.statics) statics.entry in
        let t = node_view node.now in
        let cost = words_behind_cost level vars.now t word values text in
        OnOk result (paid.new ≡ paid.old + cost) }
{
    let mut values = values;
    if !values.add(text)? {
        return Ok(Gathered::Ends(Code::Raised(TclFault::too_long(alloc)?)));
    }
    let all = words_of(node);
    if word >= all.len() {
        return Ok(Gathered::All(values));
    }
    let unit = word_unit(node);
    words(alloc, statics, vars, all, word + 1, unit, values, paid)
}

/// The words behind a part of one, which came to this value.
pub fn word_behind<K: Ledger>(
    alloc: Global,
    statics: Option<&Vars>,
    vars: &Vars,
    node: &Node,
    word: usize,
    part: usize,
    values: Values,
    text: Text,
    value: &Text,
    paid: &mut Steps<K>,
) -> M<Gathered>
    ensures words { let level = option_map (λ v. v.now.statics) statics.entry in
        let t = node_view node.now in
        IfOk result (λ r. r ≡ word_behind level vars.now t word part values text value.now) }
    ensures cost { let level = option_map (λ v. v.now.statics) statics.entry in
        let t = node_view node.now in
        let cost = word_behind_cost level vars.now t word part values text value.now in
        OnOk result (paid.new ≡ paid.old + cost) }
{
    let of_word = child_at(node, word);
    let parts = word_parts(of_word);
    let price = part_price(word_unit(node), of_word);
    match pieces_behind(alloc, statics, vars, parts, part, price, text, value, paid)? {
        Piece::Whole(text) => { words_behind(alloc, statics, vars, node, word, values, text, paid) }
        Piece::Ends(code) => Ok(Gathered::Ends(code)),
        Piece::Child { part, text } => Ok(Gathered::Child {
            word,
            part,
            values,
            text,
        }),
    }
}
