// A value beside the next one.

ghost use Rattle.std.specs.Prelude.{◌≡◌, IfOk, Ok};

/// Both values: where the second isn't had the first is dropped here.
///
/// An exit that drops a large value by itself is dear to prove; a call that takes it isn't.
pub(crate) fn zip<A: Drop, B: Drop, E: Drop>(first: A, second: Result<B, E>) -> Result<(A, B), E>
    ensures { IfOk result (λ p. (p.0 ≡ first) × (second ≡ Ok p.1)) }
{
    match second {
        Ok(second) => Ok((first, second)),
        Err(error) => Err(error),
    }
}
