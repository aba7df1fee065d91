// Which row of a data group an item matches.

ghost use Rattle.std.specs.Prelude.{◌≡◌, position};
ghost use Rattle.std.specs.Option.{option_copied};
ghost use Rattle.data_groups.specs.Matches.{first_match, first_search, holds, tested_row};
ghost use Rattle.data_groups.specs.Matches.{value_of};

use crate::holds::holds;
use crate::{ClassOp, Group, GroupKind};
use px_bytes::Text;

/// The first row for which `item OP key`: by `equals` in a group of networks, the longest network
/// that has the item's address. It takes no memory.
pub fn match_first(group: &Group, op: ClassOp, item: &[u8]) -> Option<usize>
    ensures { result ≡ first_match group.now op item.now }
{
    match op {
        ClassOp::Equals => group.equal_row(item),
        _ => match_tested(group, op, item),
    }
}

// The first row of a group of texts for which `item OP key`.
fn match_tested(group: &Group, op: ClassOp, item: &[u8]) -> Option<usize>
    ensures { result ≡ tested_row group.now.kind (λ key. holds op item.now key) group.now.rows }
{
    match group.kind() {
        GroupKind::String => first_matched(group.rows().as_slice(), op, item),
        _ => None,
    }
}

fn first_matched(rows: &[(Text, Text)], op: ClassOp, item: &[u8]) -> Option<usize>
    ensures { result ≡ position (λ row. holds op item.now row.0) rows.now }
{
    rows.iter()
        .position(|row| holds(op, item, row.0.as_bytes()))
}

/// The first row for which `key OP item`. It takes no memory.
pub fn search(group: &Group, op: ClassOp, item: &[u8]) -> Option<usize>
    ensures { result ≡ first_search group.now op item.now }
{
    match op {
        ClassOp::Equals => group.equal_row(item),
        _ => search_tested(group, op, item),
    }
}

// The first row of a group of texts for which `key OP item`.
fn search_tested(group: &Group, op: ClassOp, item: &[u8]) -> Option<usize>
    ensures { result ≡ tested_row group.now.kind (λ key. holds op key item.now) group.now.rows }
{
    match group.kind() {
        GroupKind::String => first_searched(group.rows().as_slice(), op, item),
        _ => None,
    }
}

fn first_searched(rows: &[(Text, Text)], op: ClassOp, item: &[u8]) -> Option<usize>
    ensures { result ≡ position (λ row. holds op row.0 item.now) rows.now }
{
    rows.iter()
        .position(|row| holds(op, row.0.as_bytes(), item))
}

/// The value of the row whose key equals the item. It takes no memory.
pub fn lookup<'a>(group: &'a Group, item: &[u8]) -> Option<&'a Text>
    ensures { option_copied result ≡ value_of group.now item.now }
{
    let at = group.equal_row(item)?;
    let row = group.rows().get(at)?;
    Some(&row.1)
}
