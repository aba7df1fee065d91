// The bodies that `if` and `switch` choose at once.

ghost use Rattle.std.specs.Prelude.{IfSome, List, Some, [], false, drop, option_copied, option_map};
ghost use Rattle.std.specs.Prelude.{ℕ, ◌∷◌, ◌/◌, ◌≡◌};
ghost use Rattle.std.specs.Bool.{OnTrue};
ghost use Rattle.px_bytes.specs.Limit.{text_limit};
ghost use Rattle.tcl_trees.specs.Tree.{trees_of, values_of};
ghost use Rattle.tcl_trees.specs.Tree as tree;
ghost use Rattle.tcl_trees.specs.TreeView.{node_view, nodes_view, values_view};
ghost use Rattle.rule_model.specs.Control.{first_hit, is_glob};
ghost use Rattle.rule_nodes.specs.AtOnce.{AreLiterals, Chooses, IsKnown, JoinsParts, WordIs};
ghost use Rattle.rule_nodes.specs.AtOnce.{chosen_node, hits_where, literal, literal_price};
ghost use Rattle.rule_nodes.specs.AtOnce.{literals};
ghost use Rattle.rule_nodes.specs.Choice.{first_body_of};
ghost use Rattle.rule_nodes.specs.Short.{purse, short};

use crate::short_copy::ShortCopy;
use crate::short_words::{add_part, literal_word, short_bytes};
use crate::whole_rows::{Work, whole_at_once};
use px_bytes::{TEXT_LIMIT, glob};
use tcl_trees::{Node, Verb};
use tcl_vars::Vars;

/// How many bytes the words of a `switch` have at most that is done at once.
const MOST_BYTES: usize = TEXT_LIMIT / 4;

/// The body that a command chooses.
#[derive(Clone, Copy)]
pub(crate) enum Chosen<'a> {
    /// It isn't known at once.
    Unknown,
    /// None, and the command's value is empty.
    None,
    /// This one.
    Body(&'a Node),
}

/// The body that `if` chooses, where the conditions are whole numbers.
pub(crate) fn if_body<'a>(
    statics: Option<&Vars>,
    vars: &Vars,
    values: &'a [(Node, Node)],
    last: &'a Node,
    work: &mut Work,
) -> Chosen<'a>
    ensures chosen { let level = option_map (λ v. v.now.statics) statics.entry in
        let t = tree.branches (values_of (values_view values.now)) (node_view last.now) in
        let whole = λ (budget : ℕ). short level t (purse vars.now budget work.old.cost) in
        Chooses level vars.now whole work.new.cost result }
{
    if !may_be_short(last) || !all_may_be_short(values) {
        return Chosen::Unknown;
    }
    if !work.pay(1) {
        return Chosen::Unknown;
    }
    for (condition, body) in values {
        if !work.take_operator() {
            return Chosen::Unknown;
        }
        let Some(number) = whole_at_once(statics, vars, condition, work) else {
            return Chosen::Unknown;
        };
        if number != 0 {
            return Chosen::Body(body);
        }
    }
    Chosen::Body(last)
}

/// The body that `switch` chooses, where its options and patterns are literals: so many words are
/// options and the text.
pub(crate) fn switch_body<'a>(
    statics: Option<&Vars>,
    vars: &Vars,
    front: usize,
    words: &'a [Node],
    bodies: &'a [Node],
    work: &mut Work,
) -> Chosen<'a>
    ensures chosen { let level = option_map (λ v. v.now.statics) statics.entry in
        let ts = trees_of (nodes_view words.now) in
        let bs = trees_of (nodes_view bodies.now) in
        let whole = λ (budget : ℕ). short level (tree.switch front ts bs) (purse vars.now budget
        work.old.cost) in
        Chooses level vars.now whole work.new.cost result }
{
    if front == 0 || front > words.len() || !bodies_may_be_short(bodies) {
        return Chosen::Unknown;
    }
    let (options, patterns) = (&words[..front - 1], &words[front..]);
    let Some(by_glob) = is_glob(options) else {
        return Chosen::Unknown;
    };
    if !work.pay(1) || !are_literals(options, work) {
        return Chosen::Unknown;
    }
    let mut text = ShortCopy::new();
    if !joined(statics, vars, &words[front - 1], &mut text, work) || !are_literals(patterns, work) {
        return Chosen::Unknown;
    }
    match first_hit(by_glob, text.as_bytes(), patterns) {
        Some(number) => body_from(bodies, number),
        None => Chosen::None,
    }
}

// Whether a body may be done at once, by its form: nothing is chosen at once among others, since
// they would be chosen twice.
fn may_be_short(body: &Node) -> bool {
    match body {
        Node::NextBody => true,
        Node::Script(commands) => match commands.as_slice() {
            [] => true,
            [Node::Command(verb, _)] => {
                matches!(verb, Verb::Set | Verb::Incr | Verb::Append | Verb::Lappend)
            }
            [Node::If(..) | Node::Switch { .. }] => true,
            _ => false,
        },
        _ => false,
    }
}

fn all_may_be_short(values: &[(Node, Node)]) -> bool {
    for (_, body) in values {
        if !may_be_short(body) {
            return false;
        }
    }
    true
}

fn bodies_may_be_short(bodies: &[Node]) -> bool {
    for body in bodies {
        if !may_be_short(body) {
            return false;
        }
    }
    true
}

// The bytes of a literal.
fn literal(word: &Node) -> Option<&[u8]>
    ensures { option_copied result ≡ literal (node_view word.now) }
{
    match word {
        Node::Plain(text) => short_bytes(text),
        _ => literal_word(word),
    }
}

// Whether words are literals, of few enough bytes together; each that has a part costs one.
fn are_literals(words: &[Node], work: &mut Work) -> bool
    ensures literals { let ts = nodes_view words.now in
        OnTrue result (AreLiterals ts (text_limit / 4) work.old.cost work.new.cost) }
{
    let mut total = 0;
    for word in words {
        let Some(bytes) = literal(word) else {
            return false;
        };
        if bytes.len() > MOST_BYTES - total || !work.pay(literal_price(word)) {
            return false;
        }
        total += bytes.len();
    }
    true
}

fn literal_price(word: &Node) -> u64
    ensures { result ≡ literal_price (node_view word.now) }
{
    match word {
        Node::Word(_) => 1,
        _ => 0,
    }
}

// Whether patterns are like those of `string match`; none where an option is none.
fn is_glob(options: &[Node]) -> Option<bool>
    ensures compares { IfSome result (λ glob. (texts : List (List ℕ)) → literals (nodes_view
        options.now) ≡ Some texts
        → is_glob false texts ≡ Some glob) }
{
    let mut glob = false;
    for option in options {
        glob = with_option(glob, literal(option)?)?;
    }
    Some(glob)
}

// The same behind one more option.
fn with_option(glob: bool, option: &[u8]) -> Option<bool>
    ensures { IfSome result (λ now. (options : List (List ℕ))
        → is_glob glob (option.now ∷ options) ≡ is_glob now options) }
{
    if option == b"-exact".as_slice() {
        return Some(false);
    }
    if option == b"-glob".as_slice() {
        return Some(true);
    }
    if option == b"--".as_slice() {
        return Some(glob);
    }
    None
}

// The value of a word whose parts are literals and variables; each part costs one.
fn joined(
    statics: Option<&Vars>,
    vars: &Vars,
    word: &Node,
    text: &mut ShortCopy,
    work: &mut Work,
) -> bool
    ensures word_is { let level = option_map (λ v. v.now.statics) statics.entry in
        text.old ≡ [] → OnTrue result (WordIs level vars.now (node_view word.now) text.new
        work.old.cost work.new.cost) }
{
    match word {
        Node::Word(parts) => joined_parts(statics, vars, parts, text, work),
        _ => add_part(statics, vars, word, text),
    }
}

fn joined_parts(
    statics: Option<&Vars>,
    vars: &Vars,
    parts: &[Node],
    text: &mut ShortCopy,
    work: &mut Work,
) -> bool
    ensures joins { let level = option_map (λ v. v.now.statics) statics.entry in
        OnTrue result (JoinsParts level vars.now (nodes_view parts.now) text.old text.new
        work.old.cost work.new.cost) }
{
    for part in parts {
        if !add_part(statics, vars, part, text) || !work.pay(1) {
            return false;
        }
    }
    true
}

// The number of the first pattern that is hit.
fn first_hit(by_glob: bool, text: &[u8], patterns: &[Node]) -> Option<usize>
    ensures first { (texts : List (List ℕ)) → literals (nodes_view patterns.now) ≡ Some texts
        → result ≡ first_hit by_glob text.now texts }
{
    let mut at = 0;
    let mut rest = patterns;
    while let [pattern, more @ ..] = rest {
        if hits(by_glob, text, literal(pattern)?, more.is_empty()) {
            return Some(at);
        }
        at += 1;
        rest = more;
    }
    None
}

fn hits(by_glob: bool, text: &[u8], pattern: &[u8], is_last: bool) -> bool
    ensures { result ≡ hits_where is_last by_glob text.now pattern.now }
{
    if is_last && pattern == b"default".as_slice() {
        return true;
    }
    if by_glob {
        glob(pattern, text)
    } else {
        pattern == text
    }
}

// The first body from this number on: `-` means the next one.
fn body_from(bodies: &[Node], from: usize) -> Chosen<'_>
    ensures body { chosen_node result ≡ first_body_of (drop from bodies.now) }
    ensures known { IsKnown result }
{
    for at in from..bodies.len() {
        match &bodies[at] {
            Node::NextBody => {}
            body => return Chosen::Body(body),
        }
    }
    Chosen::None
}
