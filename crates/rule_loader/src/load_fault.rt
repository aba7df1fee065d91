// Why a text is no rule.

ghost use Rattle.std.specs.Prelude.{◌≡◌};
ghost use Rattle.rule_loader.specs.Faults.{comes_first, number_of};

use px_bytes::Memory;
use tcl_trees::Flaw;

/// What can be wrong with a rule.
#[derive(Clone, Copy, PartialEq, Eq)]
pub enum LoadKind {
    /// It can't be read as a script, or a body can't be compiled, for this flaw.
    Parse(Flaw),
    /// A command is neither `when` nor `proc`, or has a wrong form.
    NotWhen,
    /// The word behind `when` is no event.
    NoEvent,
    /// A body names a command that there isn't.
    NoCommand,
    /// The word behind `priority` is no whole number from 1 to 1,000.
    BadPriority,
    /// A procedure has the name of one before it.
    TwiceProc,
    /// A handler names a command of the host that its event hasn't.
    NotHere,
}

impl LoadKind {
    /// The number under which a report tells it.
    pub fn number(self) -> u8
        ensures { result ≡ number_of self }
    {
        match self {
            LoadKind::Parse(_) => 1,
            LoadKind::NotWhen => 2,
            LoadKind::NoEvent => 3,
            LoadKind::NoCommand => 4,
            LoadKind::BadPriority => 5,
            LoadKind::TwiceProc => 6,
            LoadKind::NotHere => 7,
        }
    }
}

/// What is wrong with a rule, and where in its text, in bytes from 0.
#[derive(Clone, Copy, PartialEq, Eq)]
pub struct RuleFault {
    pub kind: LoadKind,
    pub place: usize,
}

impl RuleFault {
    /// Whether this fault is told in place of the other one.
    #[tactic(auto, unfolding(crate::specs::Faults::comes_first))]
    pub(crate) fn comes_first(&self, other: &RuleFault) -> bool
        ensures { result ≡ comes_first self.now other.now }
    {
        self.place < other.place
            || self.place == other.place && self.kind.number() < other.kind.number()
    }
}

/// Why no rule was given: the fault of its text, or out of memory.
#[derive(Clone, Copy, PartialEq, Eq)]
pub enum LoadFault {
    Fault(RuleFault),
    Memory,
}

impl From<Memory> for LoadFault {
    ghost use Rattle.rule_loader.specs.declared.load_fault.LoadFault.TheVariants.{Memory as OutOfMemory};

    ghost from_gives = { λ _ e. e ≡ OutOfMemory };

    fn from(_: Memory) -> Self {
        LoadFault::Memory
    }
}
