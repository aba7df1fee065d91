// Places in the source of what was read from a piece of it.

ghost use Rattle.std.specs.Prelude.{◌≡◌};
ghost use Rattle.tcl_trees.specs.Flaws.{moved_fault, moved_misread, place_in};

use tcl_expr::Misread;
use tcl_words::Fault;

/// The place in the source of what stands at a place of a text that begins at `base`. A place that
/// no number tells is the greatest one.
#[tactic(auto, unfolding(tcl_trees::specs::Flaws::place_in))]
pub(crate) fn place_in(base: usize, at: usize) -> usize
    ensures { result ≡ place_in base at }
{
    match base.checked_add(at) {
        Some(place) => place,
        None => usize::MAX,
    }
}

/// The fault at its place in the source.
pub(crate) fn moved_fault(base: usize, fault: Fault) -> Fault
    ensures { result ≡ moved_fault base fault }
{
    match fault {
        Fault::MissingBrace(at) => Fault::MissingBrace(place_in(base, at)),
        Fault::MissingQuote(at) => Fault::MissingQuote(place_in(base, at)),
        Fault::MissingBracket(at) => Fault::MissingBracket(place_in(base, at)),
        Fault::ExtraAfter(at) => Fault::ExtraAfter(place_in(base, at)),
        Fault::BadEscape(at) => Fault::BadEscape(place_in(base, at)),
        Fault::TooDeep(at) => Fault::TooDeep(place_in(base, at)),
    }
}

/// The fault of an expression at its place in the source.
pub(crate) fn moved_misread(base: usize, fault: Misread) -> Misread
    ensures { result ≡ moved_misread base fault }
{
    match fault {
        Misread::Syntax(at) => Misread::Syntax(place_in(base, at)),
        Misread::TooDeep(at) => Misread::TooDeep(place_in(base, at)),
    }
}
