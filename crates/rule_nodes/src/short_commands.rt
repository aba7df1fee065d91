// Commands on variables that are done at once: without a fault, and without words, values or
// codes of their own.

ghost use Rattle.std.specs.Prelude.{IfSome, List, Option, Some, []};
ghost use Rattle.std.specs.Prelude.{codes, drop, length, max, option_map};
ghost use Rattle.std.specs.Prelude.{ℕ, ◌-◌, ◌∷◌, ◌≡◌, ◌≤◌};
ghost use Rattle.std.specs.Bool.{OnFalse, OnTrue};
ghost use Rattle.tcl_lists.specs.Write.{spelled};
ghost use Rattle.tcl_vars.specs.Scopes.{Level};
ghost use Rattle.tcl_trees.specs.Tree.{trees_of};
ghost use Rattle.tcl_trees.specs.Tree as tree;
ghost use Rattle.tcl_trees.specs.TreeView.{node_view, nodes_view};
ghost use Rattle.tcl_trees.specs.declared.node.Verb.TheVariants as verb;
ghost use Rattle.rule_nodes.specs.AtOnce.{DoesCommand, DoesFront, DoesVerb, Leaves};
ghost use Rattle.rule_nodes.specs.AtOnce.{IsPlain, ReadsPart, SetsTo, chosen_short};
ghost use Rattle.rule_nodes.specs.Short.{purse, short, short_changed};

use crate::short_choices::{Chosen, if_body, switch_body};
use crate::short_copy::ShortCopy;
use crate::short_words::{add_part, literal_word, only_part, plain_name, short_bytes};
use crate::whole_rows::{Work, whole_at_once};
use px_bytes::{Steps, read_whole};
use std::sync::ledger::Ledger;
use tcl_lists::stands_bare;
use tcl_trees::{Node, Verb};
use tcl_var_commands::value;
use tcl_vars::Vars;

/// As many operators as one such command may apply, and conditions as it may ask.
const MOST_OPERATORS: u32 = 8;

/// How far such commands may stand inside one another.
const DEPTH: u32 = 4;

/// Does the commands of a script from one on, up to another, as long as they are done at once,
/// each for a unit of the budget: the number of the first that wasn't done, for which nothing has
/// changed.
pub fn commands_at_once<K: Ledger>(
    statics: Option<&Vars>,
    vars: &mut Vars,
    commands: &[Node],
    first: usize,
    end: usize,
    budget: &mut u32,
    paid: &mut Steps<K>,
) -> usize
    ensures done { let level = option_map (λ v. v.now.statics) statics.entry in
        let ts = drop first (nodes_view commands.now) in
        DoesFront level ts (result - first) vars.old budget.old paid.old vars.new budget.new
        paid.new }
    ensures onward { first ≤ result }
    ensures within { result ≤ max first end }
{
    let end = end.min(commands.len());
    let mut at = first;
    while at < end {
        if !command_at_once(statics, vars, &commands[at], budget, paid) {
            return at;
        }
        at += 1;
    }
    at
}

/// Does a command at once, for a unit of the budget: whether it was done. Where it wasn't nothing
/// has changed.
pub fn command_at_once<K: Ledger>(
    statics: Option<&Vars>,
    vars: &mut Vars,
    command: &Node,
    budget: &mut u32,
    paid: &mut Steps<K>,
) -> bool
    ensures done { let level = option_map (λ v. v.now.statics) statics.entry in
        let t = node_view command.now in
        OnTrue result (DoesCommand level t vars.old budget.old paid.old vars.new budget.new
        paid.new) }
    ensures same_variables { OnFalse result (vars.new ≡ vars.old) }
    ensures same_budget { OnFalse result (budget.new ≡ budget.old) }
    ensures nothing_paid { OnFalse result (paid.new ≡ paid.old) }
{
    if *budget == 0 {
        return false;
    }
    let mut left = *budget - 1;
    let mut work = Work {
        operators: MOST_OPERATORS,
        cost: 1,
    };
    if !done(statics, vars, command, DEPTH, &mut left, &mut work) {
        return false;
    }
    *budget = left;
    paid.add(work.cost);
    true
}

// Does a command whose unit is taken.
#[cycle(done)]
fn done(
    statics: Option<&Vars>,
    vars: &mut Vars,
    command: &Node,
    room: u32,
    budget: &mut u32,
    work: &mut Work,
) -> bool
    ensures done { let level = option_map (λ v. v.now.statics) statics.entry in
        let old = purse vars.old budget.old work.old.cost in
        let new = purse vars.new budget.new work.new.cost in
        OnTrue result (Leaves (short level (node_view command.now) old) new) }
    ensures same_variables { OnFalse result (vars.new ≡ vars.old) }
{
    match command {
        Node::Command(verb, words) => on_words(statics, vars, *verb, words, budget, work),
        Node::If(values, last) if room > 0 => {
            let chosen = if_body(statics, vars, values, last, work);
            chosen_done(statics, vars, chosen, room - 1, budget, work)
        }
        Node::Switch {
            front,
            words,
            bodies,
        } if room > 0 => {
            let chosen = switch_body(statics, vars, *front, words, bodies, work);
            chosen_done(statics, vars, chosen, room - 1, budget, work)
        }
        _ => false,
    }
}

// Does a body that was chosen, which is empty or one command.
#[cycle(done)]
fn chosen_done(
    statics: Option<&Vars>,
    vars: &mut Vars,
    chosen: Chosen<'_>,
    room: u32,
    budget: &mut u32,
    work: &mut Work,
) -> bool
    ensures done { let level = option_map (λ v. v.now.statics) statics.entry in
        let old = purse vars.old budget.old work.old.cost in
        let new = purse vars.new budget.new work.new.cost in
        OnTrue result (Leaves (chosen_short level chosen.entry old) new) }
    ensures same_variables { OnFalse result (vars.new ≡ vars.old) }
{
    let Chosen::Body(Node::Script(commands)) = chosen else {
        return matches!(chosen, Chosen::None);
    };
    match commands.as_slice() {
        [] => true,
        [command] if *budget > 0 => {
            *budget -= 1;
            if !work.pay(1) {
                return false;
            }
            done(statics, vars, command, room, budget, work)
        }
        _ => false,
    }
}

// Does a command that evaluates all its words first.
fn on_words(
    statics: Option<&Vars>,
    vars: &mut Vars,
    verb: Verb,
    words: &[Node],
    budget: &mut u32,
    work: &mut Work,
) -> bool
    ensures done { let level = option_map (λ v. v.now.statics) statics.entry in
        let t = tree.command verb (trees_of (nodes_view words.now)) in
        let old = purse vars.old budget.old work.old.cost in
        let new = purse vars.new budget.new work.new.cost in
        OnTrue result (Leaves (short level t old) new) }
    ensures same_variables { OnFalse result (vars.new ≡ vars.old) }
{
    let [head, name, behind @ ..] = words else {
        return false;
    };
    let Some(name) = plain_name(name) else {
        return false;
    };
    if literal_word(head).is_none() {
        return false;
    }
    if !work.pay(2) {
        return false;
    }
    match verb {
        Verb::Incr => incremented(statics, vars, name, behind, work),
        Verb::Set => set(statics, vars, name, behind, budget, work),
        Verb::Append => extended(statics, vars, name, b"", behind, work),
        Verb::Lappend => extended(statics, vars, name, b" ", behind, work),
        _ => false,
    }
}

// `incr NAME ?N?`.
fn incremented(
    statics: Option<&Vars>,
    vars: &mut Vars,
    name: &[u8],
    behind: &[Node],
    work: &mut Work,
) -> bool
    ensures done { let level = option_map (λ v. v.now.statics) statics.entry in
        let ts = nodes_view behind.now in
        OnTrue result ((budget : ℕ) → DoesVerb level verb.Incr name.now ts
        (purse vars.old budget work.old.cost) (purse vars.new budget work.new.cost)) }
    ensures same_variables { OnFalse result (vars.new ≡ vars.old) }
{
    match behind {
        [] => vars.add_whole(name, 1),
        [word] => {
            if !work.pay(1) {
                return false;
            }
            let Some(more) = only_part(word) else {
                return false;
            };
            match operand(statics, vars, more) {
                Some(more) => vars.add_whole(name, more),
                None => false,
            }
        }
        _ => false,
    }
}

// The whole number that a part is: a short literal or a variable's short value.
fn operand(statics: Option<&Vars>, vars: &Vars, part: &Node) -> Option<i64>
    ensures { let level = option_map (λ v. v.now.statics) statics.entry in
        IfSome result (λ n. ReadsPart level vars.now (node_view part.now) n) }
{
    let text = match part {
        Node::Plain(text) => text,
        Node::Variable(name) => value(statics, vars, name.as_bytes(), None)?,
        _ => return None,
    };
    read_whole(short_bytes(text)?)
}

// `set NAME VALUE`.
fn set(
    statics: Option<&Vars>,
    vars: &mut Vars,
    name: &[u8],
    behind: &[Node],
    budget: &mut u32,
    work: &mut Work,
) -> bool
    ensures done { let level = option_map (λ v. v.now.statics) statics.entry in
        let ts = nodes_view behind.now in
        OnTrue result (DoesVerb level verb.Set name.now ts
        (purse vars.old budget.old work.old.cost) (purse vars.new budget.new work.new.cost)) }
    ensures same_variables { OnFalse result (vars.new ≡ vars.old) }
{
    let [word] = behind else {
        return false;
    };
    if !work.pay(1) {
        return false;
    }
    match only_part(word) {
        Some(Node::Plain(text)) => match short_bytes(text) {
            Some(bytes) => vars.refill(name, bytes),
            None => false,
        },
        Some(Node::Script(commands)) => set_to(statics, vars, name, commands, budget, work),
        Some(part) => {
            let mut text = ShortCopy::new();
            add_part(statics, vars, part, &mut text) && vars.refill(name, text.as_bytes())
        }
        None => false,
    }
}

// `set NAME [expr EXPRESSION]`: the bracket's command takes a unit too.
fn set_to(
    statics: Option<&Vars>,
    vars: &mut Vars,
    name: &[u8],
    commands: &[Node],
    budget: &mut u32,
    work: &mut Work,
) -> bool
    ensures done { let level = option_map (λ v. v.now.statics) statics.entry in
        let bracket = tree.script (trees_of (nodes_view commands.now)) in
        OnTrue result (SetsTo level name.now bracket (purse vars.old budget.old work.old.cost)
        (purse vars.new budget.new work.new.cost)) }
    ensures same_variables { OnFalse result (vars.new ≡ vars.old) }
{
    let [command] = commands else {
        return false;
    };
    let Node::Expr(expression) = command else {
        return false;
    };
    if *budget == 0 {
        return false;
    }
    if !work.pay(2) {
        return false;
    }
    let Some(number) = whole_at_once(statics, vars, expression, work) else {
        return false;
    };
    if !vars.refill_whole(name, number) {
        return false;
    }
    *budget -= 1;
    true
}

// `append NAME VALUE`, and `lappend NAME VALUE` where the value stands bare in a list.
fn extended(
    statics: Option<&Vars>,
    vars: &mut Vars,
    name: &[u8],
    between: &[u8],
    behind: &[Node],
    work: &mut Work,
) -> bool
    ensures appends { let level = option_map (λ v. v.now.statics) statics.entry in
        let ts = nodes_view behind.now in
        between.now ≡ [] → OnTrue result ((budget : ℕ) → DoesVerb level verb.Append name.now ts
        (purse vars.old budget work.old.cost) (purse vars.new budget work.new.cost)) }
    ensures lists { let level = option_map (λ v. v.now.statics) statics.entry in
        let ts = nodes_view behind.now in
        between.now ≡ codes " " → OnTrue result ((budget : ℕ) → DoesVerb level verb.Lappend
        name.now ts
        (purse vars.old budget work.old.cost) (purse vars.new budget work.new.cost)) }
    ensures same_variables { OnFalse result (vars.new ≡ vars.old) }
{
    let [word] = behind else {
        return false;
    };
    if !work.pay(1) {
        return false;
    }
    match only_part(word) {
        Some(Node::Plain(text)) => match short_bytes(text) {
            Some(more) => extend(vars, name, between, more),
            None => false,
        },
        Some(part) => {
            let mut text = ShortCopy::new();
            add_part(statics, vars, part, &mut text) && extend(vars, name, between, text.as_bytes())
        }
        None => false,
    }
}

// Adds a value behind a variable's, as an element where something stands between them.
fn extend(vars: &mut Vars, name: &[u8], between: &[u8], more: &[u8]) -> bool
    ensures appends { between.now ≡ [] → OnTrue result ((level : Option Level) (head : List ℕ)
        (budget cost : ℕ)
        → IsPlain name.now
        → Leaves (short_changed level verb.Append (head ∷ name.now ∷ more.now ∷ [])
        (purse vars.old budget cost)) (purse vars.new budget cost)) }
    ensures lists { between.now ≡ codes " " → OnTrue result ((level : Option Level) (head : List ℕ)
        (budget cost : ℕ)
        → IsPlain name.now
        → Leaves (short_changed level verb.Lappend (head ∷ name.now ∷ more.now ∷ [])
        (purse vars.old budget cost)) (purse vars.new budget cost)) }
    ensures same_variables { OnFalse result (vars.new ≡ vars.old) }
{
    if !between.is_empty() && !is_bare(more) {
        return false;
    }
    vars.extend(name, between, more)
}

// Whether an element is written as it is.
fn is_bare(element: &[u8]) -> bool
    ensures { OnTrue result (spelled element.now ≡ element.now) }
{
    !element.is_empty() && stands_bare(element)
}
