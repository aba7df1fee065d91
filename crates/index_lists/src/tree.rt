// A tree of minima: the leaf of a number stands at the number of leaves and that number, and each inner
// node, from 1 on, has the earlier of the nodes at twice its place and behind it.

ghost use Rattle.std.specs.Prelude.{◌≡◌, ◌-◌, ◌*◌, ◌<◌, ◌≤◌, None, get_or, slice_set, drop};
ghost use Rattle.index_lists.specs.Least.{IsTree};

use crate::earlier::earlier;

/// Sets a leaf, and its ancestors as far as they change.
pub(crate) fn set(nodes: &mut [Option<u64>], size: usize, at: usize, due: Option<u64>)
    requires tree { IsTree size nodes.old }
    requires leaf { size ≤ at }
    requires inside { at < 2 * size }
    ensures tree { IsTree size nodes.new }
    ensures dues { drop size nodes.new ≡ slice_set (drop size nodes.old) (at - size) due }
{
    nodes[at] = due;
    let mut node = at;
    while node > 1 {
        node = node / 2;
        let least = earlier(nodes[2 * node], nodes[2 * node + 1]);
        if nodes[node] == least {
            return;
        }
        nodes[node] = least;
    }
}

/// The place of a leaf that has a node's deadline, as the root's.
pub(crate) fn leaf_of_root(nodes: &[Option<u64>], size: usize) -> usize
    requires tree { IsTree size nodes.now }
    requires some { 0 < size }
    ensures leaf { size ≤ result }
    ensures inside { result < 2 * size }
    ensures same { get_or nodes.now result None ≡ get_or nodes.now 1 None }
{
    let mut node = 1;
    while node < size {
        node = 2 * node;
        if nodes[node] != nodes[node / 2] {
            node = node + 1;
        }
    }
    node
}
