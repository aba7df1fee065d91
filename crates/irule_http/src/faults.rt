// The faults of HTTP commands where they may not be called.

ghost use Rattle.std.specs.Prelude.{Err};
ghost use Rattle.px_bytes.specs.Gives.{Gives};
ghost use Rattle.irule_http.specs.FaultText.{already_answered};
ghost use Rattle.irule_net.specs.FaultText.{not_here};

use px_bytes::{FaultKind, Raise, TclFault, Text};
use std::alloc::Global;

/// The answer that the command of this name may not be called here.
pub(crate) fn not_here<T>(alloc: Global, name: &[u8]) -> Result<T, Raise>
    ensures { Gives result (Err (not_here name.now)) }
{
    let mut text = Text::new(alloc, name)?;
    text.push(b": not allowed here")?;
    Err(Raise::Fault(TclFault {
        kind: FaultKind::Context,
        text,
    }))
}

/// The answer that a rule has answered the request already.
pub(crate) fn already_answered<T>(alloc: Global, name: &[u8]) -> Result<T, Raise>
    ensures { Gives result (Err (already_answered name.now)) }
{
    let mut text = Text::new(alloc, name)?;
    text.push(b": already answered")?;
    Err(Raise::Fault(TclFault {
        kind: FaultKind::Context,
        text,
    }))
}
