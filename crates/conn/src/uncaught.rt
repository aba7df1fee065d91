// The fault that a body leaves.

ghost use Rattle.std.specs.Prelude.{◌≡◌, IfOk};
ghost use Rattle.rule_model.specs.Outcome.{uncaught_of};

use px_bytes::{M, TclFault};
use rule_model::Code;
use std::alloc::Global;

/// The fault that a body which ends so leaves uncaught.
pub(crate) fn uncaught(alloc: Global, code: Code) -> M<Option<TclFault>>
    ensures { IfOk result (λ fault. fault ≡ uncaught_of code) }
{
    Ok(match code {
        Code::Value(_) => None,
        Code::Raised(fault) => Some(fault),
        Code::Return(_) => None,
        Code::Break => Some(TclFault::outside_loop(alloc, b"break")?),
        Code::Continue => Some(TclFault::outside_loop(alloc, b"continue")?),
    })
}
