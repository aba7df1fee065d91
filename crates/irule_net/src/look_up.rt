// Which row of a data group an item matches, and what is told of it.

ghost use Rattle.std.specs.Prelude.{◌≡◌, IfOk};
ghost use Rattle.std.specs.Option.{option_copied};
ghost use Rattle.px_bytes.specs.Gives.{Gives};
ghost use Rattle.irule_net.specs.Classes.{bit, found, found_in, has_op, match_option, op_of};
ghost use Rattle.irule_net.specs.Classes.{place_in, row_at, search_option, told};

use crate::faults::no_such_class;
use crate::groups::{NamedGroup, class_in};
use data_groups::{ClassOp, Group, GroupKind, match_first, search};
use px_bytes::{M, Raise, Text};
use std::alloc::Global;

/// What is told of the row that an item matches: whether there is one, its key or its value.
#[derive(Clone, Copy, PartialEq, Eq)]
pub(crate) enum Telling {
    Whether,
    OfKey,
    OfValue,
}

/// What is told of the row of the group of this name that the item matches by the operator; where
/// it searches, the key stands before the operator.
pub(crate) fn found(
    alloc: Global,
    classes: &[NamedGroup],
    searches: bool,
    telling: Telling,
    op: &Text,
    item: &Text,
    name: &Text,
) -> Result<Text, Raise>
    ensures { Gives result (found classes.now searches telling op.now item.now name.now) }
{
    let Some(op) = op_of(op.as_bytes()) else {
        return Raise::syntax(alloc, b"class");
    };
    match class_in(name.as_bytes(), classes) {
        Some(group) => found_in(alloc, searches, telling, op, item, group),
        None => no_such_class(alloc, name.as_bytes()),
    }
}

fn found_in(
    alloc: Global,
    searches: bool,
    telling: Telling,
    op: ClassOp,
    item: &Text,
    group: &Group,
) -> Result<Text, Raise>
    ensures { Gives result (found_in searches telling op item.now group.now) }
{
    if !has_op(group.kind(), op) {
        return Raise::syntax(alloc, b"class");
    }
    let at = place_in(searches, group, op, item.as_bytes());
    Ok(told(alloc, telling, group.rows().as_slice(), at)?)
}

// Whether groups of a kind have the operator.
fn has_op(kind: GroupKind, op: ClassOp) -> bool
    ensures { result ≡ has_op kind op }
{
    kind == GroupKind::String || op == ClassOp::Equals
}

fn place_in(searches: bool, group: &Group, op: ClassOp, item: &[u8]) -> Option<usize>
    ensures { result ≡ place_in searches group.now op item.now }
{
    if searches {
        search(group, op, item)
    } else {
        match_first(group, op, item)
    }
}

fn told(alloc: Global, telling: Telling, rows: &[(Text, Text)], at: Option<usize>) -> M<Text>
    ensures { IfOk result (λ text. text ≡ told telling rows.now at) }
{
    match (telling, row_at(rows, at)) {
        (Telling::Whether, _) => bit(alloc, at.is_some()),
        (Telling::OfKey, Some(row)) => row.0.copy(),
        (Telling::OfValue, Some(row)) => row.1.copy(),
        _ => Ok(Text::empty(alloc)),
    }
}

fn row_at(rows: &[(Text, Text)], at: Option<usize>) -> Option<&(Text, Text)>
    ensures { option_copied result ≡ row_at rows.now at }
{
    rows.get(at?)
}

/// `1` or `0`.
pub(crate) fn bit(alloc: Global, yes: bool) -> M<Text>
    ensures { IfOk result (λ text. text ≡ bit yes) }
{
    Text::new(alloc, if yes { b"1" } else { b"0" })
}

/// The option of `match`.
pub(crate) fn match_option(word: &[u8]) -> Option<Telling>
    ensures { result ≡ match_option word.now }
{
    if word == b"-value".as_slice() {
        return Some(Telling::OfValue);
    }
    None
}

/// An option of `search`.
pub(crate) fn search_option(word: &[u8]) -> Option<Telling>
    ensures { result ≡ search_option word.now }
{
    if word == b"-value".as_slice() {
        return Some(Telling::OfValue);
    }
    if word == b"-name".as_slice() {
        return Some(Telling::OfKey);
    }
    None
}

fn op_of(word: &[u8]) -> Option<ClassOp>
    ensures { result ≡ op_of word.now }
{
    if word == b"equals".as_slice() {
        return Some(ClassOp::Equals);
    }
    if word == b"starts_with".as_slice() {
        return Some(ClassOp::StartsWith);
    }
    if word == b"ends_with".as_slice() {
        return Some(ClassOp::EndsWith);
    }
    if word == b"contains".as_slice() {
        return Some(ClassOp::Contains);
    }
    None
}
