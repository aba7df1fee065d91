// The moves of a quoted operand and of an array's element.

ghost use Rattle.std.specs.Prelude.{IfOk, OnOk, option_map, ◌+◌, ◌≡◌};
ghost use Rattle.tcl_trees.specs.TreeView.{node_view};
ghost use Rattle.tcl_trees.specs.declared.node.Node.{out-Node};
ghost use Rattle.frame_words.specs.WordMoves.{pieces_begin, pieces_goes, pieces_next, whole_code};
ghost use Rattle.frame_words.specs.WordMoves.{whole_in};

use crate::pieces::{Piece, pieces, pieces_behind};
use frames::{Frame, Next, pieces_of};
use px_bytes::{M, Steps, Text};
use rule_model::Code;
use rule_nodes::{coded, element};
use std::alloc::Global;
use std::sync::ledger::Ledger;
use tcl_trees::Node;
use tcl_vars::Vars;

/// What a whole text comes to: the value of the element that it indexes, or itself.
#[tactic(auto, using(crate::proofs::WholeViews::whole_view))]
fn whole_code(
    alloc: Global,
    statics: Option<&Vars>,
    vars: &Vars,
    node: &Node,
    text: Text,
) -> M<Code>
    ensures { let level = option_map (λ v. v.now.statics) statics.entry in
        IfOk result (λ c. c ≡ whole_code level vars.now (node_view node.now) text) }
{
    whole_here(alloc, statics, vars, node, text)
}

#[tactic(auto, using(frames::proofs::Given::coded_is))]
fn whole_here(
    alloc: Global,
    statics: Option<&Vars>,
    vars: &Vars,
    node: &Node,
    text: Text,
) -> M<Code>
    ensures { let level = option_map (λ v. v.now.statics) statics.entry in
        IfOk result (λ c. c ≡ whole_in level vars.now (out-Node node.now) text) }
{
    match node {
        Node::Element(name, _) => coded(element(alloc, statics, vars, name, &text)),
        _ => Ok(Code::Value(text)),
    }
}

fn pieces_next(
    alloc: Global,
    statics: Option<&Vars>,
    vars: &Vars,
    node: &Node,
    piece: Piece,
) -> M<Next>
    ensures { let level = option_map (λ v. v.now.statics) statics.entry in
        IfOk result (λ n. n ≡ pieces_next level vars.now (node_view node.now) piece) }
{
    match piece {
        Piece::Whole(text) => {
            let code = whole_code(alloc, statics, vars, node, text)?;
            Ok(Next::stop(code))
        }
        Piece::Ends(code) => Ok(Next::stop(code)),
        Piece::Child { part, text } => Ok(Next::child(Frame::Pieces { part, text })),
    }
}

/// A quoted operand or an element begins.
pub fn begin_pieces<K: Ledger>(
    alloc: Global,
    statics: Option<&Vars>,
    vars: &Vars,
    node: &Node,
    paid: &mut Steps<K>,
) -> M<Next>
    ensures next { let level = option_map (λ v. v.now.statics) statics.entry in
        IfOk result (λ n. n ≡ (pieces_begin level vars.now (node_view node.now)).next) }
    ensures cost { let level = option_map (λ v. v.now.statics) statics.entry in
        let cost = (pieces_begin level vars.now (node_view node.now)).cost in
        OnOk result (paid.new ≡ paid.old + cost) }
{
    let text = Text::empty(alloc);
    let piece = pieces(alloc, statics, vars, pieces_of(node), 0, 1, text, paid)?;
    pieces_next(alloc, statics, vars, node, piece)
}

/// It goes on behind a part.
pub fn go_pieces<K: Ledger>(
    alloc: Global,
    statics: Option<&Vars>,
    vars: &Vars,
    node: &Node,
    part: usize,
    text: Text,
    code: Code,
    paid: &mut Steps<K>,
) -> M<Next>
    ensures next { let level = option_map (λ v. v.now.statics) statics.entry in
        let m = pieces_goes level vars.now (node_view node.now) part text code in
        IfOk result (λ n. n ≡ m.next) }
    ensures cost { let level = option_map (λ v. v.now.statics) statics.entry in
        let m = pieces_goes level vars.now (node_view node.now) part text code in
        OnOk result (paid.new ≡ paid.old + m.cost) }
{
    match code {
        Code::Value(value) => {
            let parts = pieces_of(node);
            let piece = pieces_behind(alloc, statics, vars, parts, part, 1, text, &value, paid)?;
            pieces_next(alloc, statics, vars, node, piece)
        }
        code => Ok(Next::stop(code)),
    }
}
