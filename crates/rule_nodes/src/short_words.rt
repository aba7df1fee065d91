// Words of one part, and short ones.

ghost use Rattle.std.specs.Prelude.{IfSome, None, Some, length, option_copied, option_map, ◌≡◌};
ghost use Rattle.std.specs.Prelude.{◌≤◌};
ghost use Rattle.std.specs.Bool.{OnTrue};
ghost use Rattle.tcl_trees.specs.TreeView.{node_view};
ghost use Rattle.tcl_vars.specs.Names.{ends_with_paren, name_of};
ghost use Rattle.rule_nodes.specs.AtOnce.{AddsPart, literal_word, only_part, short_text};

use crate::short_copy::ShortCopy;
use px_bytes::Text;
use tcl_trees::Node;
use tcl_var_commands::value;
use tcl_vars::Vars;

/// How many bytes a short text has at most.
const MOST: usize = 65_536;

/// The only part of a word.
pub(crate) fn only_part(word: &Node) -> Option<&Node>
    ensures { option_map (λ n. node_view n.now) result ≡ only_part (node_view word.now) }
{
    let Node::Word(parts) = word else {
        return None;
    };
    if parts.len() != 1 {
        return None;
    }
    parts.as_slice().first()
}

/// The bytes of a word that is one short literal.
pub(crate) fn literal_word(word: &Node) -> Option<&[u8]>
    ensures { option_copied result ≡ literal_word (node_view word.now) }
{
    match only_part(word)? {
        Node::Plain(text) => short_bytes(text),
        _ => None,
    }
}

/// The bytes of a short text.
pub(crate) fn short_bytes(text: &Text) -> Option<&[u8]>
    ensures { option_copied result ≡ short_text text.now }
{
    if text.len() > MOST {
        return None;
    }
    Some(text.as_bytes())
}

/// The name of a variable that such a word is, where it has no index.
pub(crate) fn plain_name(word: &Node) -> Option<&[u8]>
    ensures literal { IfSome (option_copied result) (λ name. literal_word (node_view word.now) ≡
        Some name) }
    ensures no_index { IfSome (option_copied result) (λ name.
        name_of name ≡ record { name = name; index = None }) }
{
    let name = literal_word(word)?;
    if ends_with_paren(name) {
        return None;
    }
    Some(name)
}

fn ends_with_paren(text: &[u8]) -> bool
    ensures { result ≡ ends_with_paren text.now }
{
    match text.last() {
        Some(last) => *last == b')',
        None => false,
    }
}

/// Adds the value of a part to a text: a literal, or a variable's; whether it was done.
pub(crate) fn add_part(
    statics: Option<&Vars>,
    vars: &Vars,
    part: &Node,
    text: &mut ShortCopy,
) -> bool
    ensures added { let level = option_map (λ v. v.now.statics) statics.entry in
        OnTrue result (AddsPart level vars.now (node_view part.now) text.old text.new) }
    ensures few { OnTrue result (length text.new ≤ 64) }
{
    match part {
        Node::Plain(bytes) => text.add(bytes.as_bytes()),
        Node::Variable(name) => match value(statics, vars, name.as_bytes(), None) {
            Some(value) => text.add(value.as_bytes()),
            None => false,
        },
        _ => false,
    }
}
