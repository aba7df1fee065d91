// Faults of variables that aren't there.

ghost use Rattle.std.specs.Prelude.{◌≡◌, IfOk};
ghost use Rattle.tcl_var_commands.specs.Unset.{cannot_unset};

use px_bytes::{FaultKind, M, TclFault, Text};
use std::alloc::Global;

/// There is no variable to take away.
pub(crate) fn cannot_unset(alloc: Global, name: &[u8]) -> M<TclFault>
    ensures { IfOk result (λ f. f ≡ cannot_unset name.now) }
{
    let mut text = Text::new(alloc, b"can't unset \"")?;
    text.push(name)?;
    text.push(b"\": no such variable")?;
    Ok(TclFault {
        kind: FaultKind::NoVariable,
        text,
    })
}
