// The faults that network commands alone raise.

ghost use Rattle.std.specs.Prelude.{◌≡◌, Err, IfOk};
ghost use Rattle.px_bytes.specs.Gives.{Gives};
ghost use Rattle.irule_net.specs.FaultText.{no_such, no_such_class, no_such_member};
ghost use Rattle.irule_net.specs.FaultText.{no_such_pool, not_here, reselects_spent};

use px_bytes::{Addr, FaultKind, M, Raise, TclFault, Text, print_addr};
use std::alloc::Global;

/// The answer that the command of this name may not be called here.
pub(crate) fn not_here<T>(alloc: Global, name: &[u8]) -> Result<T, Raise>
    ensures { Gives result (Err (not_here name.now)) }
{
    let mut text = Text::new(alloc, name)?;
    text.push(b": not allowed here")?;
    Err(Raise::Fault(TclFault {
        kind: FaultKind::Context,
        text,
    }))
}

/// The fault that another selection was asked for too often.
pub(crate) fn reselects_spent(alloc: Global) -> M<TclFault>
    ensures { IfOk result (λ f. f ≡ reselects_spent) }
{
    Ok(TclFault {
        kind: FaultKind::Context,
        text: Text::new(alloc, b"reselect limit of 16 reached")?,
    })
}

/// The answer that there is no pool of this name.
pub(crate) fn no_such_pool<T>(alloc: Global, name: &[u8]) -> Result<T, Raise>
    ensures { Gives result (Err (no_such_pool name.now)) }
{
    Err(Raise::Fault(no_such(alloc, b"pool", name)?))
}

/// The answer that there is no data group of this name.
pub(crate) fn no_such_class<T>(alloc: Global, name: &[u8]) -> Result<T, Raise>
    ensures { Gives result (Err (no_such_class name.now)) }
{
    Err(Raise::Fault(no_such(alloc, b"class", name)?))
}

/// The answer that a pool has no member of this address.
pub(crate) fn no_such_member<T>(alloc: Global, addr: Addr) -> Result<T, Raise>
    ensures { Gives result (Err (no_such_member addr)) }
{
    let text = print_addr(alloc, addr)?;
    Err(Raise::Fault(no_such(alloc, b"member", text.as_bytes())?))
}

fn no_such(alloc: Global, thing: &[u8], name: &[u8]) -> M<TclFault>
    ensures { IfOk result (λ f. f ≡ no_such thing.now name.now) }
{
    let mut text = Text::new(alloc, b"no such ")?;
    text.push(thing)?;
    text.push(b" \"")?;
    text.push(name)?;
    text.push(b"\"")?;
    Ok(TclFault {
        kind: FaultKind::NoSuch,
        text,
    })
}
