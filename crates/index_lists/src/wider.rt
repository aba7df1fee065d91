// The tree of more numbers.

ghost use Rattle.std.specs.Prelude.{◌≡◌, ◌-◌, ◌*◌, ◌++◌, ◌≤◌, ◌<◌, None, IfOk, drop, length, replicate};
ghost use Rattle.index_lists.specs.Least.{IsTree};

use crate::tree::set;
use std::alloc::{AllocError, Global};

/// The tree of so many numbers, of which the first have these deadlines and the others none.
pub(crate) fn wider(
    alloc: Global,
    dues: &[Option<u64>],
    size: usize,
) -> Result<Vec<Option<u64>>, AllocError>
    requires few { length dues.now ≤ size }
    requires size { size < 4294967296 }
    ensures tree { IfOk result (λ nodes. IsTree size nodes.items) }
    ensures dues { IfOk result (λ nodes. drop size nodes.items
        ≡ dues.now ++ replicate (size - length dues.now) None) }
{
    let mut nodes = without_deadlines(alloc, size)?;
    put_all(&mut nodes, size, dues);
    Ok(nodes)
}

fn without_deadlines(alloc: Global, size: usize) -> Result<Vec<Option<u64>>, AllocError>
    requires { size < 4294967296 }
    ensures { IfOk result (λ nodes. nodes.items ≡ replicate (2 * size) None) }
{
    vec![in alloc; None; 2 * size]
}

fn put_all(nodes: &mut [Option<u64>], size: usize, dues: &[Option<u64>])
    requires nodes { nodes.old ≡ replicate (2 * size) None }
    requires few { length dues.now ≤ size }
    ensures tree { IsTree size nodes.new }
    ensures dues { drop size nodes.new ≡ dues.now ++ replicate (size - length dues.now) None }
{
    for (id, due) in dues.iter().enumerate() {
        set(nodes, size, size + id, *due);
    }
}
