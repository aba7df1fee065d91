// What has its end at once, and is never begun as a child.

ghost use Rattle.std.specs.Prelude.{IfOk, option_map, ◌≡◌};
ghost use Rattle.tcl_trees.specs.TreeView.{node_view};
ghost use Rattle.tcl_trees.specs.declared.node.Node.{out-Node};
ghost use Rattle.frames.specs.Leafs.{bare_code, bare_name, is_leaf_in, leaf_code, leaf_in};
ghost use Rattle.frames.specs.Owed.{is_flat};

use px_bytes::{M, TclFault, Text};
use rule_model::Code;
use rule_nodes::{coded, element, variable};
use std::alloc::Global;
use tcl_trees::{Node, Verb};
use tcl_vars::Vars;

/// Whether a node has its end at once.
#[tactic(auto, using(crate::proofs::LeafViews::is_leaf_view))]
#[inline(always)]
pub fn is_leaf(node: &Node) -> bool
    ensures { result ≡ is_flat (node_view node.now) }
{
    leaf_here(node)
}

#[inline(always)]
fn leaf_here(node: &Node) -> bool
    ensures { result ≡ is_leaf_in (out-Node node.now) }
{
    match node {
        Node::Plain(_) | Node::Variable(_) | Node::NextBody => true,
        Node::Word(children) | Node::Script(children) => children.is_empty(),
        Node::Element(_, children) => children.is_empty(),
        Node::Command(_, children) => children.is_empty(),
        _ => false,
    }
}

/// The code that such a node ends with.
#[tactic(auto, using(crate::proofs::LeafViews::leaf_view))]
#[inline(always)]
pub fn leaf_code(alloc: Global, statics: Option<&Vars>, vars: &Vars, node: &Node) -> M<Code>
    ensures { let level = option_map (λ v. v.now.statics) statics.entry in
        IfOk result (λ c. c ≡ leaf_code level vars.now (node_view node.now)) }
{
    code_here(alloc, statics, vars, node)
}

#[tactic(auto, using(crate::proofs::Given::coded_is))]
#[inline(always)]
fn code_here(alloc: Global, statics: Option<&Vars>, vars: &Vars, node: &Node) -> M<Code>
    ensures { let level = option_map (λ v. v.now.statics) statics.entry in
        IfOk result (λ c. c ≡ leaf_in level vars.now (out-Node node.now)) }
{
    match node {
        Node::Plain(text) => Ok(Code::Value(text.copy()?)),
        Node::Variable(name) => coded(variable(alloc, statics, vars, name)),
        Node::Element(name, _) => {
            let index = Text::empty(alloc);
            coded(element(alloc, statics, vars, name, &index))
        }
        Node::Command(verb, _) => bare_code(alloc, *verb),
        _ => Ok(Code::Value(Text::empty(alloc))),
    }
}

// What a command without words comes to.
fn bare_code(alloc: Global, verb: Verb) -> M<Code>
    ensures { IfOk result (λ c. c ≡ bare_code verb) }
{
    match verb {
        Verb::Named | Verb::Computed => Ok(Code::Value(Text::empty(alloc))),
        Verb::Break => Ok(Code::Break),
        Verb::Continue => Ok(Code::Continue),
        _ => Ok(Code::Raised(TclFault::wrong_arity(alloc, bare_name(verb))?)),
    }
}

// The name of a command that wants words.
fn bare_name(verb: Verb) -> &'static [u8]
    ensures { result.now ≡ bare_name verb }
{
    match verb {
        Verb::Set => b"set",
        Verb::Unset => b"unset",
        Verb::Incr => b"incr",
        Verb::Append => b"append",
        Verb::Lappend => b"lappend",
        Verb::Array => b"array",
        Verb::Info => b"info",
        Verb::Return => b"return",
        Verb::Error => b"error",
        Verb::Call => b"call",
        Verb::ExprOfWords => b"expr",
        Verb::Named | Verb::Computed | Verb::Break | Verb::Continue => b"",
    }
}
