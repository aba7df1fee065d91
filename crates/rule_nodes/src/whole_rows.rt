// Expressions whose operands are whole numbers, worked out without texts.

ghost use Rattle.std.specs.Prelude.{IfSome, List, Some, option_map, ℕ, ◌+◌, ◌≡◌, ◌≤◌};
ghost use Rattle.std.specs.Bool.{OnTrue};
ghost use Rattle.px_bytes.specs.Whole.{whole};
ghost use Rattle.tcl_trees.specs.Tree.{operands_of};
ghost use Rattle.tcl_trees.specs.TreeView.{node_view, operands_view};
ghost use Rattle.rule_model.specs.Children.{alone};
ghost use Rattle.rule_nodes.specs.AtOnce.{JoinsWhole, ReadsWhole};

use px_bytes::read_whole;
use tcl_expr::{Joint, whole_2};
use tcl_trees::Node;
use tcl_var_commands::value;
use tcl_vars::Vars;

/// How far rows of operators may stand inside one another where they are worked out at once.
const DEPTH: u32 = 8;

/// How many operators may still be applied at once, and what was paid.
#[derive(Clone, Copy)]
pub struct Work {
    pub operators: u32,
    pub cost: u64,
}

impl Work {
    /// Pays so many units more: whether the cost can be counted.
    pub fn pay(&mut self, units: u64) -> bool
        ensures paid { OnTrue result (self.new.cost ≡ self.old.cost + units) }
        ensures operators { self.new.operators ≡ self.old.operators }
    {
        match self.cost.checked_add(units) {
            Some(cost) => {
                self.cost = cost;
                true
            }
            None => false,
        }
    }

    /// Takes one of the operators that may still be applied: whether there was one.
    pub fn take_operator(&mut self) -> bool
        ensures cost { self.new.cost ≡ self.old.cost }
        ensures fewer { self.new.operators ≤ self.old.operators }
    {
        if self.operators == 0 {
            return false;
        }
        self.operators -= 1;
        true
    }
}

/// The whole number that an expression comes to, where all its operands are whole numbers and its
/// operators are few and those of whole numbers, without a fault. It takes no memory.
pub fn whole_at_once(
    statics: Option<&Vars>,
    vars: &Vars,
    expression: &Node,
    work: &mut Work,
) -> Option<i64>
    ensures reads { let level = option_map (λ v. v.now.statics) statics.entry in
        let t = node_view expression.now in
        IfSome result (λ n. ReadsWhole level vars.now t (work.old.cost + alone t) work.new.cost n) }
    ensures fewer { work.new.operators ≤ work.old.operators }
{
    if !work.pay(alone(expression)) {
        return None;
    }
    whole_of(statics, vars, expression, DEPTH, work)
}

// What an expression costs besides its operands, as it begins.
fn alone(expression: &Node) -> u64
    ensures { result ≡ alone (node_view expression.now) }
{
    match expression {
        Node::Prefixed(..) | Node::Row(..) | Node::Choice(..) => 0,
        _ => 1,
    }
}

#[cycle(whole)]
fn whole_of(
    statics: Option<&Vars>,
    vars: &Vars,
    node: &Node,
    room: u32,
    work: &mut Work,
) -> Option<i64>
    ensures reads { let level = option_map (λ v. v.now.statics) statics.entry in
        let t = node_view node.now in
        IfSome result (λ n. ReadsWhole level vars.now t work.old.cost work.new.cost n) }
    ensures fewer { work.new.operators ≤ work.old.operators }
{
    match node {
        Node::Plain(text) => read_whole(text.as_bytes()),
        Node::Variable(name) => {
            let text = value(statics, vars, name.as_bytes(), None)?;
            read_whole(text.as_bytes())
        }
        Node::Row(first, rest) if room > 0 => {
            if !work.pay(1) {
                return None;
            }
            let left = whole_of(statics, vars, first, room - 1, work)?;
            joined(statics, vars, left, rest, room - 1, work)
        }
        _ => None,
    }
}

// A value with the operands behind it.
#[cycle(whole)]
fn joined(
    statics: Option<&Vars>,
    vars: &Vars,
    first: i64,
    rest: &[(Joint, Node)],
    room: u32,
    work: &mut Work,
) -> Option<i64>
    ensures joins { let level = option_map (λ v. v.now.statics) statics.entry in
        let os = operands_of (operands_view rest.now) in
        IfSome result (λ n. (left : List ℕ) → whole left ≡ Some first
        → JoinsWhole level vars.now os left work.old.cost work.new.cost n) }
    ensures fewer { work.new.operators ≤ work.old.operators }
{
    let mut left = first;
    for (joint, operand) in rest {
        let Joint::Both(op) = joint else {
            return None;
        };
        if !work.take_operator() || !work.pay(2) {
            return None;
        }
        let right = whole_of(statics, vars, operand, room, work)?;
        left = whole_2(*op, left, right)?;
    }
    Some(left)
}
