// What is wrong with a script.

ghost use Rattle.std.specs.Prelude.{◌≡◌};
ghost use Rattle.tcl_trees.specs.Flaws.{comes_first, order_of, place_of, too_deep};

use tcl_expr::Misread;
use tcl_words::Fault;

/// What is wrong with a script, with its place in the source.
#[derive(Clone, Copy, PartialEq, Eq)]
pub enum Flaw {
    /// A body is no script.
    Parse(Fault),
    /// A condition is no expression.
    Expr(Misread),
    /// A control command has a wrong number of words.
    Arity(usize),
    /// What should be a body or a condition isn't a word without substitution, or what stands in
    /// the braced word of `switch` isn't a list, has another body than one in braces or `-`, or
    /// ends with `-`.
    BadBody(usize),
}

impl Flaw {
    pub fn place(&self) -> usize
        ensures { result ≡ place_of self.now }
    {
        match self {
            Flaw::Parse(fault) => fault.place(),
            Flaw::Expr(Misread::Syntax(at) | Misread::TooDeep(at)) => *at,
            Flaw::Arity(at) | Flaw::BadBody(at) => *at,
        }
    }

    /// Which flaw is told of several at one place: the least.
    fn order(&self) -> u8
        ensures { result ≡ order_of self.now }
    {
        match self {
            Flaw::Parse(_) => 1,
            Flaw::Expr(_) => 2,
            Flaw::Arity(_) => 3,
            Flaw::BadBody(_) => 4,
        }
    }

    /// Whether this flaw is told in place of the other one.
    #[tactic(auto, unfolding(crate::specs::Flaws::comes_first))]
    pub(crate) fn comes_first(&self, other: &Flaw) -> bool
        ensures { result ≡ comes_first self.now other.now }
    {
        self.place() < other.place()
            || self.place() == other.place() && self.order() < other.order()
    }
}

/// Whether the flaw is that more than a hundred constructs stand inside one another.
pub fn is_too_deep(flaw: Flaw) -> bool
    ensures { result ≡ too_deep flaw }
{
    matches!(
        flaw,
        Flaw::Parse(Fault::TooDeep(_)) | Flaw::Expr(Misread::TooDeep(_))
    )
}
