// Why a text has no script.

ghost use Rattle.std.specs.Prelude.{◌≡◌};

use px_bytes::Memory;

/// What is wrong with a text, with the place of the construct that stays open, of the byte that
/// follows a closed one, of the bad escape, or of the opener that is one too many.
#[derive(Clone, Copy, PartialEq, Eq)]
pub enum Fault {
    MissingBrace(usize),
    MissingQuote(usize),
    MissingBracket(usize),
    ExtraAfter(usize),
    BadEscape(usize),
    TooDeep(usize),
}

impl Fault {
    ghost use Rattle.tcl_words.specs.Faults.{place_of, number_of, comes_first};

    pub fn place(&self) -> usize
        ensures { result ≡ place_of self.now }
    {
        match self {
            Fault::MissingBrace(at)
            | Fault::MissingQuote(at)
            | Fault::MissingBracket(at)
            | Fault::ExtraAfter(at)
            | Fault::BadEscape(at)
            | Fault::TooDeep(at) => *at,
        }
    }

    /// The fault's place in the list of kinds, from 1.
    fn number(&self) -> u8
        ensures { result ≡ number_of self.now }
    {
        match self {
            Fault::MissingBrace(_) => 1,
            Fault::MissingQuote(_) => 2,
            Fault::MissingBracket(_) => 3,
            Fault::ExtraAfter(_) => 4,
            Fault::BadEscape(_) => 5,
            Fault::TooDeep(_) => 6,
        }
    }

    /// Whether this fault is told in place of the other one.
    #[tactic(auto, unfolding(crate::specs::Faults::comes_first))]
    pub(crate) fn comes_first(&self, other: &Fault) -> bool
        ensures { result ≡ comes_first self.now other.now }
    {
        self.place() < other.place()
            || self.place() == other.place() && self.number() < other.number()
    }
}

/// Why no script was given: the text's fault, or want of memory.
#[derive(Clone, Copy, PartialEq, Eq)]
pub enum ParseFault {
    Fault(Fault),
    Memory,
}

impl From<Memory> for ParseFault {
    ghost use Rattle.tcl_words.specs.declared.parse_fault.ParseFault.TheVariants.{Memory as OutOfMemory};

    ghost from_gives = { λ _ e. e ≡ OutOfMemory };

    fn from(_: Memory) -> Self {
        ParseFault::Memory
    }
}
