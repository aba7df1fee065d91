// Which command stands there.

ghost use Rattle.std.specs.Prelude.{◌≡◌, map};
ghost use Rattle.tcl_words.specs.View.{word_view};
ghost use Rattle.tcl_trees.specs.Shapes.{body_named, flow_named, named, shape_of};

use crate::node::Verb;
use tcl_words::Word;

/// What a command does with its words.
#[derive(Clone, Copy, PartialEq, Eq)]
pub enum Shape {
    /// It evaluates them all.
    Words(Verb),
    Expr,
    If,
    While,
    For,
    Foreach,
    Switch,
    Catch,
}

/// What a command of this name does, where it is none on variables, and none that leaves a body or
/// calls.
#[tactic(auto, unfolding(crate::specs::Shapes::body_named))]
fn body_named(name: &[u8]) -> Shape
    ensures { result ≡ body_named name.now }
{
    if name == b"expr".as_slice() {
        return Shape::Expr;
    }
    if name == b"if".as_slice() {
        return Shape::If;
    }
    if name == b"while".as_slice() {
        return Shape::While;
    }
    if name == b"for".as_slice() {
        return Shape::For;
    }
    if name == b"foreach".as_slice() {
        return Shape::Foreach;
    }
    if name == b"switch".as_slice() {
        return Shape::Switch;
    }
    if name == b"catch".as_slice() {
        return Shape::Catch;
    }
    Shape::Words(Verb::Named)
}

/// The same where it is none on variables.
#[tactic(auto, unfolding(crate::specs::Shapes::flow_named))]
fn flow_named(name: &[u8]) -> Shape
    ensures { result ≡ flow_named name.now }
{
    if name == b"return".as_slice() {
        return Shape::Words(Verb::Return);
    }
    if name == b"break".as_slice() {
        return Shape::Words(Verb::Break);
    }
    if name == b"continue".as_slice() {
        return Shape::Words(Verb::Continue);
    }
    if name == b"error".as_slice() {
        return Shape::Words(Verb::Error);
    }
    if name == b"call".as_slice() {
        return Shape::Words(Verb::Call);
    }
    body_named(name)
}

/// What a command of this name does.
#[tactic(auto, unfolding(crate::specs::Shapes::named))]
fn named(name: &[u8]) -> Shape
    ensures { result ≡ named name.now }
{
    if name == b"set".as_slice() {
        return Shape::Words(Verb::Set);
    }
    if name == b"unset".as_slice() {
        return Shape::Words(Verb::Unset);
    }
    if name == b"incr".as_slice() {
        return Shape::Words(Verb::Incr);
    }
    if name == b"append".as_slice() {
        return Shape::Words(Verb::Append);
    }
    if name == b"lappend".as_slice() {
        return Shape::Words(Verb::Lappend);
    }
    if name == b"array".as_slice() {
        return Shape::Words(Verb::Array);
    }
    if name == b"info".as_slice() {
        return Shape::Words(Verb::Info);
    }
    flow_named(name)
}

/// What the command of these words does.
pub fn shape_of(words: &[Word]) -> Shape
    ensures { result ≡ shape_of (map word_view words.now) }
{
    match words.first() {
        Some(Word { raw: Some(raw), .. }) => named(raw.as_bytes()),
        Some(Word { raw: None, .. }) => Shape::Words(Verb::Computed),
        None => Shape::Words(Verb::Named),
    }
}
