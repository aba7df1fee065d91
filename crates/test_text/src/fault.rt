// What can be wrong with a test file.

ghost use Rattle.std.specs.Prelude.{◌≡◌};
ghost use Rattle.test_text.specs.Faults.{fault_at, fault_words, first_of, script_words};

use px_bytes::Memory;
use tcl_words::Fault;

/// What can be wrong with a test file.
#[derive(Clone, Copy)]
pub enum TestFaultKind {
    /// It can't be read as a script.
    Script(Fault),
    /// A word has a variable or a bracket.
    Substituted,
    /// No form goes on with this word.
    Unexpected,
    /// All forms go on where the command ends.
    Missing,
    NoAddress,
    NoNumber,
    /// Steps or names are to stand in braces.
    NoBraces,
    /// No configuration stands before a test.
    NoConfig,
    /// No client of this name came before.
    NoClient,
    /// A client of this name came before.
    TwiceClient,
    /// No connection ends for such a cause.
    NoCause,
}

/// What is wrong with a test file, and where in its text, in bytes from 0.
#[derive(Clone, Copy)]
pub struct TestFault {
    pub kind: TestFaultKind,
    pub place: usize,
}

/// Why a test file wasn't read: its fault, or memory was refused.
#[derive(Clone, Copy)]
pub enum Stopped {
    Fault(TestFault),
    Memory,
}

impl From<Memory> for Stopped {
    ghost use Rattle.test_text.specs.declared.fault.Stopped.TheVariants.{Memory as OutOfMemory};

    ghost from_gives = { λ _ e. e ≡ OutOfMemory };

    fn from(_: Memory) -> Self {
        Stopped::Memory
    }
}

impl From<TestFault> for Stopped {
    ghost use Rattle.test_text.specs.declared.fault.Stopped.TheVariants.{Fault as Faulty};

    ghost from_gives = { λ fault e. e ≡ Faulty fault };

    fn from(fault: TestFault) -> Self {
        Stopped::Fault(fault)
    }
}

pub(crate) fn fault_at(kind: TestFaultKind, place: usize) -> TestFault
    ensures { result ≡ fault_at kind place }
{
    TestFault { kind, place }
}

/// Of a fault of the text as a script and one of what was read of it, the one that comes first.
pub(crate) fn first_of(script: Fault, fault: TestFault) -> TestFault
    ensures { result ≡ first_of script fault }
{
    if fault.place < script.place() {
        return fault;
    }
    fault_at(TestFaultKind::Script(script), script.place())
}

fn script_words(fault: Fault) -> &'static str
    ensures { result.now ≡ script_words fault }
{
    match fault {
        Fault::MissingBrace(_) => "a brace that stays open",
        Fault::MissingQuote(_) => "a quote that stays open",
        Fault::MissingBracket(_) => "a bracket that stays open",
        Fault::ExtraAfter(_) => "a blank or a line's end must follow a closing brace or quote",
        Fault::BadEscape(_) => "an escape of a number above 255, which is no byte",
        Fault::TooDeep(_) => "more than 100 braces or brackets stand inside one another",
    }
}

impl TestFaultKind {
    /// What is wrong, in English.
    pub fn words(self) -> &'static str
        ensures { result.now ≡ fault_words self }
    {
        match self {
            TestFaultKind::Script(fault) => script_words(fault),
            TestFaultKind::Substituted => "a word with a variable or a bracket",
            TestFaultKind::Unexpected => "this word can't stand here",
            TestFaultKind::Missing => "a word is missing behind this line",
            TestFaultKind::NoAddress => "an address A.B.C.D:PORT is due here",
            TestFaultKind::NoNumber => "a whole number is due here",
            TestFaultKind::NoBraces => "braces are due here",
            TestFaultKind::NoConfig => "a test wants a configuration before it",
            TestFaultKind::NoClient => "no client of this name came before",
            TestFaultKind::TwiceClient => "a client of this name came before",
            TestFaultKind::NoCause => "no connection ends for this cause",
        }
    }
}
